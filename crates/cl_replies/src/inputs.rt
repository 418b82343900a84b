//! The inputs of a command, and the replies to words that are no command and to files that are bad.
ghost use Rattle.std.specs.Prelude.{◌≡◌, ◌++◌, IfOk};
ghost use Rattle.std.specs.Str.{encode_utf8_all};
ghost use Rattle.cl_replies.specs.Inputs.{bad_file_reply, cost_fault_text, fault_text, line_fault_text, transactions_fault_text};
ghost use Rattle.cl_replies.specs.Reports.{usage_reply};

use cl_audit::Trace;
use cl_claims::BadLine;
use cl_costs::{CostRefusal, CostTable};
use cl_entries::{Reply, Status, bytes_reply};
use cl_file::{Row, TxRefusal};
use cl_forms::Version;
use cl_text::TextRefusal;
use cl_tx::TxFile;
use cl_types::Text;
use cl_values::Val;
use cl_words::Source;
use std::alloc::{AllocError, Global};

/// Why a file is bad.
#[derive(Drop)]
pub enum FileFault {
    /// It has more than 16 MiB.
    TooLong,
    /// It is no cost file.
    Costs(CostRefusal),
    /// It is no transaction file.
    Transactions(TxRefusal),
    /// It is no trace file.
    Traces(BadLine),
}

/// The inputs of a command: what its words say, with what its files hold.
#[derive(Drop)]
pub enum Inputs<'a> {
    /// The words are no command.
    NoCommand,
    /// The first file that is too long or not in its format.
    BadFile {
        name: &'a str,
        fault: FileFault,
    },
    /// The first argument of `call` that is no value.
    BadArgument(TextRefusal),
    Call {
        source: Row<u8>,
        version: Version,
        function: &'a str,
        args: Row<Val>,
    },
    Run {
        costs: CostTable,
        file: TxFile,
        state: bool,
    },
    Check {
        costs: CostTable,
        sources: Row<Source>,
    },
    Value(&'a str),
    Wire(&'a str),
    Gen {
        seed: u64,
        count: u32,
    },
    Trace {
        costs: CostTable,
        file: TxFile,
    },
    Audit {
        costs: CostTable,
        file: TxFile,
        traces: Vec<Trace>,
        report: Row<u8>,
    },
    Root {
        costs: CostTable,
        file: TxFile,
    },
    Prove {
        costs: CostTable,
        file: TxFile,
        number: u32,
    },
    Verify {
        root: &'a str,
        key: &'a str,
        value: &'a str,
        sides: &'a [String],
    },
}

/// The reply to words that are not of the table.
pub fn usage_reply(alloc: Global) -> Result<Reply, AllocError>
    ensures { IfOk result (λ reply. reply ≡ usage_reply) }
{
    let text = Vec::from_slice(alloc, b"usage: clarity COMMAND WORDS\n")?;
    Ok(bytes_reply(text, Status::Usage))
}

fn write_cost_fault(out: &mut Vec<u8>, fault: &CostRefusal) -> Result<(), AllocError>
    ensures { IfOk result (λ _. out.new.items ≡ out.old.items ++ cost_fault_text fault.now) }
{
    match fault {
        CostRefusal::NotJson => out.extend_from_slice(b"NotJson")?,
        CostRefusal::Missing { name } => {
            out.extend_from_slice(b"Missing ")?;
            out.extend_from_slice(name.bytes())?;
        }
        CostRefusal::BadShape { name, dimension } => {
            out.extend_from_slice(b"BadShape ")?;
            out.extend_from_slice(name.bytes())?;
            out.extend_from_slice(b" ")?;
            out.extend_from_slice(dimension.as_str().as_bytes())?;
        }
        CostRefusal::TooBig { name } => {
            out.extend_from_slice(b"TooBig ")?;
            out.extend_from_slice(name.bytes())?;
        }
        CostRefusal::Unknown { name } => {
            out.extend_from_slice(b"Unknown ")?;
            out.extend_from_slice(name.as_str().as_bytes())?;
        }
    }
    Ok(())
}

/// A name and a path behind it.
fn write_path(out: &mut Vec<u8>, name: &[u8], path: &Text) -> Result<(), AllocError>
    ensures { IfOk result (λ _. out.new.items
        ≡ out.old.items ++ (name.now ++ encode_utf8_all path.now)) }
{
    out.extend_from_slice(name)?;
    out.extend_from_slice(path.as_str().as_bytes())?;
    Ok(())
}

fn write_transactions_fault(out: &mut Vec<u8>, fault: &TxRefusal) -> Result<(), AllocError>
    ensures { IfOk result
        (λ _. out.new.items ≡ out.old.items ++ transactions_fault_text fault.now) }
{
    match fault {
        TxRefusal::NotJson => out.extend_from_slice(b"NotJson"),
        TxRefusal::Field { path } => write_path(out, b"Field ", path),
        TxRefusal::BadValue { path } => write_path(out, b"BadValue ", path),
        TxRefusal::TooMany => out.extend_from_slice(b"TooMany"),
        TxRefusal::HeightFalls { path } => write_path(out, b"HeightFalls ", path),
        TxRefusal::GenesisTooBig => out.extend_from_slice(b"GenesisTooBig"),
        TxRefusal::Version => out.extend_from_slice(b"Version"),
    }
}

/// The line of a trace file that isn't in the format.
fn write_line_fault(out: &mut Vec<u8>, fault: &BadLine) -> Result<(), AllocError>
    ensures { IfOk result (λ _. out.new.items ≡ out.old.items ++ line_fault_text fault.now) }
{
    let line = fault.line;
    let text = format!(in *out.allocator(); "BadLine {line}")?;
    out.extend_from_slice(text.as_bytes())
}

fn write_fault(out: &mut Vec<u8>, fault: &FileFault) -> Result<(), AllocError>
    ensures { IfOk result (λ _. out.new.items ≡ out.old.items ++ fault_text fault.now) }
{
    match fault {
        FileFault::TooLong => out.extend_from_slice(b"TooLong"),
        FileFault::Costs(fault) => write_cost_fault(out, fault),
        FileFault::Transactions(fault) => write_transactions_fault(out, fault),
        FileFault::Traces(fault) => write_line_fault(out, fault),
    }
}

/// The line of a bad file.
fn bad_file_line(alloc: Global, name: &str, fault: &FileFault) -> Result<Vec<u8>, AllocError>
    ensures { IfOk result (λ text. text.items ≡ (bad_file_reply name.now fault.now).text) }
{
    let mut text = Vec::new(alloc);
    text.extend_from_slice(b"bad file ")?;
    text.extend_from_slice(name.as_bytes())?;
    text.extend_from_slice(b" ")?;
    write_fault(&mut text, fault)?;
    text.extend_from_slice(b"\n")?;
    Ok(text)
}

/// The reply to a file that is bad.
pub fn bad_file_reply(alloc: Global, name: &str, fault: &FileFault) -> Result<Reply, AllocError>
    ensures { IfOk result (λ reply. reply ≡ bad_file_reply name.now fault.now) }
{
    let text = bad_file_line(alloc, name, fault)?;
    Ok(bytes_reply(text, Status::BadFile))
}
