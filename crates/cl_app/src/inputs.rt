//! Reads the inputs of a command: the files that its words name, in their order, up to the first that is bad.
ghost use Rattle.std.specs.Prelude.{◌≡◌, ◌≢◌, ◌<◌, ◌^◌, ◌++◌, ◌∷◌, [], Ok, true, None, Some, IfOk, IfErr, List, ℕ, length, map, option_map};
ghost use Rattle.std.specs.List.{All};
ghost use Rattle.cl_ports.specs.Growth.{GrowsPart};
ghost use Rattle.cl_shapes.specs.declared.function.CostFn.{CostFn};
ghost use Rattle.cl_file.specs.Files.{FileSeen};
ghost use Rattle.cl_words.specs.Seen.{audit_seen, check_seen, command_seen};
ghost use Rattle.cl_words.specs.Sources.{are_sources, contract_at};
ghost use Rattle.cl_words.specs.Words.{Call, IsOfTable, names_of, texts};
ghost use Rattle.cl_entries.specs.Scripts.{CountsRead};
ghost use Rattle.cl_audit_results.specs.Audits.{claims_of};
ghost use Rattle.cl_replies.specs.Inputs.{AuditInputs, CheckInputs, inputs_seen};
ghost use Rattle.cl_replies.specs.Checked.{source_at};
ghost use Rattle.cl_app.specs.Reading.{AreInputs, Asks, AsksPart, AuditSuits, CallSuits, CommandReads, EntriesSuit, Gives, KeepTable, Suits, audited_seen, ends_with, inputs_for, reads_audited, reads_called, reads_entries, reads_file_of_entries, reads_sources, sources_seen};

use crate::files::{BadFile, read_costs, read_text, read_trace_file, read_transactions};
use cl_audit::Trace;
use cl_costs::CostTable;
use cl_entries::Stop;
use cl_file::{Row, files_have_one_reading};
use cl_forms::Version;
use cl_ports::Files;
use cl_replies::{FileFault, Inputs};
use cl_text::one_outcome;
use cl_tx::TxFile;
use cl_types::{Fault, NoMemory};
use cl_values::Val;
use cl_words::{AuditWords, CheckWords, Command, Source, contract_at, values};
use std::alloc::Global;

/// What the entries of a transaction file are read for.
#[derive(Clone, Copy)]
pub enum Purpose {
    /// Their report, and the state after them where it is asked for.
    Report(bool),
    /// The values that the nodes of their evaluations give.
    Values,
    /// The root of the state after them.
    StateRoot,
    /// The row of that state with this number.
    Row(u32),
}

/// The inputs with these entries.
fn inputs_for<'a>(purpose: Purpose, costs: CostTable, file: TxFile) -> Inputs<'a>
    ensures { inputs_seen result ≡ inputs_for purpose costs file }
{
    match purpose {
        Purpose::Report(state) => Inputs::Run { costs, file, state },
        Purpose::Values => Inputs::Trace { costs, file },
        Purpose::StateRoot => Inputs::Root { costs, file },
        Purpose::Row(number) => Inputs::Prove {
            costs,
            file,
            number,
        },
    }
}

/// A cost file, and then a transaction file.
fn read_entries<'a, F: Files>(
    alloc: Global,
    purpose: Purpose,
    costs: &'a str,
    file: &'a str,
    files: &mut F,
) -> Result<Inputs<'a>, Stop>
    ensures gives { IfOk result (λ inputs. Gives
        (λ held. reads_entries held costs.now file.now (inputs_for purpose)) (F.held files.old)
        (inputs_seen inputs)) }
    ensures suits { IfOk result (λ inputs. EntriesSuit (inputs_for purpose) (inputs_seen inputs)) }
    ensures cause { CountsRead (F.faults files.old) (F.faults files.new) result }
    ensures asked { Asks (λ held. reads_entries held costs.now file.now (inputs_for purpose))
        (F.held files.old) (F.asked files.old) (F.asked files.new) }
    ensures names { GrowsPart (F.asked files.old) (F.asked files.new)
        (costs.now ∷ file.now ∷ []) }
{
    let table = match read_costs(alloc, costs, files)? {
        Ok(table) => table,
        Err(fault) => return Ok(Inputs::BadFile { name: costs, fault }),
    };
    match read_transactions(alloc, file, files)? {
        Ok(entries) => Ok(inputs_for(purpose, table, entries)),
        Err(fault) => Ok(Inputs::BadFile { name: file, fault }),
    }
}

/// The source with this text under a path.
fn source_at(words: &CheckWords<'_>, path: &str, text: Row<u8>) -> Source
    ensures { result ≡ source_at words.now.address words.now.version path.now text }
{
    Source {
        principal: contract_at(&words.address, path),
        text,
        version: words.version,
    }
}

fn push(sources: &mut Vec<Source>, source: Source) -> Result<(), NoMemory>
    ensures { IfOk result (λ _. sources.new.items ≡ sources.old.items ++ source ∷ []) }
{
    sources.push(source)?;
    Ok(())
}

/// The sources under the paths, or the first file that is too long. None is asked for after that.
fn read_sources<'a, F: Files>(
    alloc: Global,
    words: &CheckWords<'a>,
    files: &mut F,
) -> Result<Result<Row<Source>, BadFile<'a>>, Stop>
    ensures gives { IfOk result (λ read. (table : List CostFn) → Gives
        (λ held. reads_sources held words.now.address words.now.version (texts words.now.paths.now)
        (λ sources. ends_with (CheckInputs table sources))) (F.held files.old)
        (sources_seen table read)) }
    ensures contracts { IfOk result (λ read. IfOk read (λ sources.
        map (λ source. source.principal) sources
        ≡ map (contract_at words.now.address) (texts words.now.paths.now))) }
    ensures cause { CountsRead (F.faults files.old) (F.faults files.new) result }
    ensures asked { (table : List CostFn) → Asks
        (λ held. reads_sources held words.now.address words.now.version (texts words.now.paths.now)
        (λ sources. ends_with (CheckInputs table sources))) (F.held files.old) (F.asked files.old)
        (F.asked files.new) }
    ensures names { GrowsPart (F.asked files.old) (F.asked files.new) (texts words.now.paths.now) }
{
    let mut sources = Vec::new(alloc);
    for path in words.paths {
        let name = path.as_str();
        match read_text(name, files)? {
            Ok(text) => push(&mut sources, source_at(words, name, text))?,
            Err(fault) => return Ok(Err(BadFile { name, fault })),
        }
    }
    Ok(Ok(Row::new(sources)))
}

/// A cost file, and then sources.
fn read_check<'a, F: Files>(
    alloc: Global,
    words: &CheckWords<'a>,
    files: &mut F,
) -> Result<Inputs<'a>, Stop>
    requires { are_sources (texts words.now.paths.now) ≡ true }
    ensures inputs { IfOk result (λ inputs. AreInputs (Some (check_seen words.now))
        (F.held files.old) (inputs_seen inputs)) }
    ensures table { IfOk result (λ inputs. KeepTable (inputs_seen inputs)) }
    ensures cause { CountsRead (F.faults files.old) (F.faults files.new) result }
    ensures asked { AsksPart (Some (check_seen words.now)) (F.held files.old) (F.asked files.old)
        (F.asked files.new) }
    ensures names { GrowsPart (F.asked files.old) (F.asked files.new)
        (words.now.costs.now ∷ texts words.now.paths.now) }
{
    let costs = match read_costs(alloc, words.costs, files)? {
        Ok(costs) => costs,
        Err(fault) => {
            return Ok(Inputs::BadFile {
                name: words.costs,
                fault,
            });
        }
    };
    match read_sources(alloc, words, files)? {
        Ok(sources) => Ok(Inputs::Check { costs, sources }),
        Err(BadFile { name, fault }) => Ok(Inputs::BadFile { name, fault }),
    }
}

/// What `audit` compares with the entries of a transaction file.
#[derive(Drop)]
pub struct Audited {
    pub traces: Vec<Trace>,
    pub report: Row<u8>,
}

/// A trace file of so many entries and then a report, or the first that is bad.
fn read_audited<'a, F: Files>(
    alloc: Global,
    words: &AuditWords<'a>,
    entries: u32,
    files: &mut F,
) -> Result<Result<Audited, BadFile<'a>>, Stop>
    ensures gives { IfOk result (λ read. (table : List CostFn) (file : FileSeen) → Gives
        (λ held. reads_audited held words.now.trace.now words.now.report.now entries
        (AuditInputs table file)) (F.held files.old) (audited_seen table file read)) }
    ensures count { IfOk result (λ read. IfOk read
        (λ audited. length (claims_of audited.traces.items) ≡ entries)) }
    ensures few { IfOk result (λ read. IfOk read
        (λ audited. All (λ c. length c < 2 ^ 32) (claims_of audited.traces.items))) }
    ensures cause { CountsRead (F.faults files.old) (F.faults files.new) result }
    ensures asked { (table : List CostFn) (file : FileSeen) → Asks
        (λ held. reads_audited held words.now.trace.now words.now.report.now entries
        (AuditInputs table file)) (F.held files.old) (F.asked files.old) (F.asked files.new) }
    ensures names { GrowsPart (F.asked files.old) (F.asked files.new)
        (words.now.trace.now ∷ words.now.report.now ∷ []) }
{
    let traces = match read_trace_file(alloc, words.trace, entries, files)? {
        Ok(traces) => traces,
        Err(fault) => {
            return Ok(Err(BadFile {
                name: words.trace,
                fault,
            }));
        }
    };
    match read_text(words.report, files)? {
        Ok(report) => Ok(Ok(Audited { traces, report })),
        Err(fault) => Ok(Err(BadFile {
            name: words.report,
            fault,
        })),
    }
}

/// A transaction file, its trace file and then its report, behind a cost file.
fn read_entries_audited<'a, F: Files>(
    alloc: Global,
    words: &AuditWords<'a>,
    costs: CostTable,
    files: &mut F,
) -> Result<Inputs<'a>, Stop>
    ensures gives { IfOk result (λ inputs. Gives
        (λ held. reads_file_of_entries held words.now.file.now (λ f.
        reads_audited held words.now.trace.now words.now.report.now (length f.entries)
        (AuditInputs costs f))) (F.held files.old) (inputs_seen inputs)) }
    ensures suits { IfOk result (λ inputs. AuditSuits (inputs_seen inputs)) }
    ensures table { IfOk result (λ inputs. KeepTable (inputs_seen inputs)) }
    ensures cause { CountsRead (F.faults files.old) (F.faults files.new) result }
    ensures asked { Asks (λ held. reads_file_of_entries held words.now.file.now (λ f.
        reads_audited held words.now.trace.now words.now.report.now (length f.entries)
        (AuditInputs costs f))) (F.held files.old) (F.asked files.old) (F.asked files.new) }
    ensures names { GrowsPart (F.asked files.old) (F.asked files.new)
        (words.now.file.now ∷ words.now.trace.now ∷ words.now.report.now ∷ []) }
{
    files_have_one_reading();
    let file = match read_transactions(alloc, words.file, files)? {
        Ok(file) => file,
        Err(fault) => {
            return Ok(Inputs::BadFile {
                name: words.file,
                fault,
            });
        }
    };
    match read_audited(alloc, words, file.entries().len() as u32, files)? {
        Ok(Audited { traces, report }) => Ok(Inputs::Audit {
            costs,
            file,
            traces,
            report,
        }),
        Err(BadFile { name, fault }) => Ok(Inputs::BadFile { name, fault }),
    }
}

/// A cost file, a transaction file, its trace file and then its report.
fn read_audit<'a, F: Files>(
    alloc: Global,
    words: &AuditWords<'a>,
    files: &mut F,
) -> Result<Inputs<'a>, Stop>
    ensures inputs { IfOk result (λ inputs. AreInputs (Some (audit_seen words.now))
        (F.held files.old) (inputs_seen inputs)) }
    ensures table { IfOk result (λ inputs. KeepTable (inputs_seen inputs)) }
    ensures cause { CountsRead (F.faults files.old) (F.faults files.new) result }
    ensures asked { AsksPart (Some (audit_seen words.now)) (F.held files.old) (F.asked files.old)
        (F.asked files.new) }
    ensures names { GrowsPart (F.asked files.old) (F.asked files.new)
        (names_of (Some (audit_seen words.now))) }
{
    match read_costs(alloc, words.costs, files)? {
        Ok(costs) => read_entries_audited(alloc, words, costs, files),
        Err(fault) => Ok(Inputs::BadFile {
            name: words.costs,
            fault,
        }),
    }
}

/// The source of `call`, whose arguments are these values.
fn read_called<'a, F: Files>(
    file: &'a str,
    function: &'a str,
    args: Row<Val>,
    version: Version,
    files: &mut F,
) -> Result<Inputs<'a>, Stop>
    ensures gives { IfOk result (λ inputs. Gives
        (λ held. reads_called held file.now function.now version (Ok args)) (F.held files.old)
        (inputs_seen inputs)) }
    ensures suits { IfOk result
        (λ inputs. CallSuits function.now version (Ok args) (inputs_seen inputs)) }
    ensures cause { CountsRead (F.faults files.old) (F.faults files.new) result }
    ensures part { GrowsPart (F.asked files.old) (F.asked files.new) (file.now ∷ []) }
{
    match read_text(file, files)? {
        Ok(source) => Ok(Inputs::Call {
            source,
            version,
            function,
            args,
        }),
        Err(fault) => Ok(Inputs::BadFile { name: file, fault }),
    }
}

/// The arguments of `call`, and then its source where all of them are values.
fn read_call<'a, F: Files>(
    alloc: Global,
    file: &'a str,
    function: &'a str,
    args: &[String],
    version: Version,
    files: &mut F,
) -> Result<Inputs<'a>, Stop>
    ensures inputs { IfOk result (λ inputs. AreInputs
        (Some (Call file.now function.now (texts args.now) version)) (F.held files.old)
        (inputs_seen inputs)) }
    ensures cause { CountsRead (F.faults files.old) (F.faults files.new) result }
    ensures asked { AsksPart (Some (Call file.now function.now (texts args.now) version))
        (F.held files.old) (F.asked files.old) (F.asked files.new) }
    ensures names { GrowsPart (F.asked files.old) (F.asked files.new) (file.now ∷ []) }
{
    one_outcome();
    match values(alloc, args) {
        Ok(values) => read_called(file, function, Row::new(values), version, files),
        Err(Fault::Refused(refusal)) => Ok(Inputs::BadArgument(refusal)),
        Err(Fault::NoMemory) => Err(Stop::NoMemory),
    }
}

/// The inputs of a command.
fn read_command<'a, F: Files>(
    alloc: Global,
    command: &Command<'a>,
    files: &mut F,
) -> Result<Inputs<'a>, Stop>
    requires { IsOfTable (Some (command_seen command.now)) }
    ensures inputs { IfOk result (λ inputs. AreInputs (Some (command_seen command.now))
        (F.held files.old) (inputs_seen inputs)) }
    ensures table { IfOk result (λ inputs. KeepTable (inputs_seen inputs)) }
    ensures cause { CountsRead (F.faults files.old) (F.faults files.new) result }
    ensures asked { AsksPart (Some (command_seen command.now)) (F.held files.old)
        (F.asked files.old) (F.asked files.new) }
    ensures names { GrowsPart (F.asked files.old) (F.asked files.new)
        (names_of (Some (command_seen command.now))) }
{
    match command {
        Command::Call {
            file,
            function,
            args,
            version,
        } => read_call(alloc, *file, *function, *args, *version, files),
        Command::Run { costs, file, state } => {
            read_entries(alloc, Purpose::Report(*state), *costs, *file, files)
        }
        Command::Check(words) => read_check(alloc, words, files),
        Command::Value(word) => Ok(Inputs::Value(*word)),
        Command::Wire(word) => Ok(Inputs::Wire(*word)),
        Command::Gen { seed, count } => Ok(Inputs::Gen {
            seed: *seed,
            count: *count,
        }),
        Command::Trace { costs, file } => {
            read_entries(alloc, Purpose::Values, *costs, *file, files)
        }
        Command::Audit(words) => read_audit(alloc, words, files),
        Command::Root { costs, file } => {
            read_entries(alloc, Purpose::StateRoot, *costs, *file, files)
        }
        Command::Prove {
            costs,
            file,
            number,
        } => read_entries(alloc, Purpose::Row(*number), *costs, *file, files),
        Command::Verify {
            root,
            key,
            value,
            sides,
        } => Ok(Inputs::Verify {
            root: *root,
            key: *key,
            value: *value,
            sides: *sides,
        }),
    }
}

/// Reads the inputs of a command: the files that its words name, in their order, up to the first that
/// is bad. `None` stands for words that are no command. A failed read ends it (`Stop::ReadFailed`).
pub fn read_inputs<'a, F: Files>(
    alloc: Global,
    command: &Option<Command<'a>>,
    files: &mut F,
) -> Result<Inputs<'a>, Stop>
    requires { IsOfTable (option_map command_seen command.now) }
    ensures inputs { IfOk result (λ inputs. AreInputs (option_map command_seen command.now)
        (F.held files.old) (inputs_seen inputs)) }
    ensures table { IfOk result (λ inputs. KeepTable (inputs_seen inputs)) }
    ensures cause { CountsRead (F.faults files.old) (F.faults files.new) result }
    ensures reads { IfErr result
        (λ stop. stop ≡ Stop.ReadFailed → option_map command_seen command.now ≢ None) }
    ensures asked { AsksPart (option_map command_seen command.now) (F.held files.old)
        (F.asked files.old) (F.asked files.new) }
    ensures names { GrowsPart (F.asked files.old) (F.asked files.new)
        (names_of (option_map command_seen command.now)) }
{
    match command {
        None => Ok(Inputs::NoCommand),
        Some(known) => read_command(alloc, known, files),
    }
}
