//! The checker of whole texts.
ghost use Rattle.std.specs.Prelude.{◌≡◌, ◌≤◌, ℕ, List, false, true, length, map, IfOk};
ghost use Rattle.std.specs.List.{list_all};
ghost use Rattle.cl_types.specs.Fault.{IfRefused};
ghost use Rattle.cl_forms.specs.Order.{IsGoodOrder};
ghost use Rattle.cl_forms.specs.Texts.{text_of};
ghost use Rattle.cl_code.specs.Definitions.{form_defined};
ghost use Rattle.cl_rules.specs.Context.{Known};
ghost use Rattle.cl_rules.specs.FormRules.{nothing_defined};
ghost use Rattle.cl_contracts.specs.Seen.{IsIndexed, forms_of, goes};
ghost use Rattle.cl_contracts.specs.Standings.{FitsAfter, Knows, definitions_in_order};
ghost use Rattle.cl_judging.specs.Seen.{Shows, top_level_in};
ghost use Rattle.cl_readonly.specs.Functions.{HaveOwnNames};
ghost use Rattle.cl_check.specs.Checking.{BreaksForms, IsContractOf, IsFirstBreak, IsRefusalOf, StandForForms, StandsForTyped, forms_in_order};
ghost use Rattle.cl_check.specs.JudgingForms.{AreKnown};

use crate::placing::{in_text_order, places};
use crate::reading::{Program, ordered_forms};
use crate::walk::walk;
use cl_c32::Principal;
use cl_code::Definition;
use cl_contracts::{Checked, Deployed, Parts};
use cl_forms::Version;
use cl_judging::Context;
use cl_readonly::first_writing;
use cl_rules::{forms_of_texts_are_decided, the_plain_program_is_right};
use cl_sexpr::{Break, Refusal, Rule};
use cl_types::{Fault, NoMemory};
use indexmap::{IndexMap, IndexSet};
use std::alloc::Global;

/// Before the first form of a text of this version.
fn nothing<'a>(
    alloc: Global,
    deployed: &'a Deployed,
    principal: &Principal,
    version: Version,
) -> Context<'a>
    ensures empty { (x : List ℕ) → top_level_in result x ≡ false }
    ensures shown { (known : List Known) (size : ℕ) → Knows deployed.now known →
        Shows result (nothing_defined known principal.now version size).context }
{
    let hash_key = deployed.hash_key();
    let constants = IndexMap::with_hasher(alloc, hash_key);
    let variables = IndexMap::with_hasher(alloc, hash_key);
    let maps = IndexMap::with_hasher(alloc, hash_key);
    let fungibles = IndexSet::with_hasher(alloc, hash_key);
    let nonfungibles = IndexMap::with_hasher(alloc, hash_key);
    let functions = IndexMap::with_hasher(alloc, hash_key);
    Context {
        principal: *principal,
        version,
        deployed,
        constants,
        variables,
        maps,
        fungibles,
        nonfungibles,
        functions,
    }
}

/// The definitions of the forms of a text of this version, in the order of evaluation, or the first
/// rule of typing that one breaks.
fn typed(
    alloc: Global,
    deployed: &Deployed,
    principal: &Principal,
    version: Version,
    program: &Program,
) -> Result<Vec<Definition>, Fault<Break>>
    requires known { AreKnown program.now.forms.items }
    requires good { IsGoodOrder program.now.forms.items program.now.order.items }
    ensures forms { IfOk result (λ ds. map form_defined ds.items ≡ forms_in_order program.now) }
    ensures standing { IfOk result
        (λ ds. StandForForms deployed.now principal.now version (forms_in_order program.now)
        ds.items) }
    ensures broken { IfRefused result
        (λ b. BreaksForms deployed.now principal.now version (forms_in_order program.now) b) }
{
    let mut ctx = nothing(alloc, deployed, principal, version);
    let done = match walk(alloc, &mut ctx, &program.forms, &program.order) {
        Ok(done) => done,
        Err(fault) => return Err(fault),
    };
    Ok(done)
}

/// The parts of a contract with the forms of a program, whose definitions are in the order of
/// evaluation. Its text has this version and this length.
fn made(
    alloc: Global,
    principal: &Principal,
    version: Version,
    size: u32,
    program: Program,
    done: Vec<Definition>,
) -> Result<Parts, NoMemory>
    requires known { AreKnown program.forms.items }
    requires good { IsGoodOrder program.forms.items program.order.items }
    requires defined { map form_defined done.items ≡ forms_in_order program }
    requires goes { list_all (goes version) done.items ≡ true }
    ensures forms { IfOk result (λ c. forms_of c ≡ program.forms.items) }
    ensures done { IfOk result (λ c. definitions_in_order c ≡ done.items) }
    ensures order { IfOk result (λ c. c.order.items ≡ program.order.items) }
    ensures indexed { IfOk result (λ c. IsIndexed c) }
    ensures principal { IfOk result (λ c. c.principal ≡ principal.now) }
    ensures version { IfOk result (λ c. c.version ≡ version) }
    ensures length { IfOk result (λ c. c.source_length ≡ size) }
{
    let Program {
        hash_key,
        forms,
        order,
    } = program;
    let definitions = in_text_order(alloc, done, &forms, &order)?;
    let places = places(alloc, hash_key, &definitions)?;
    Ok(Parts {
        principal: *principal,
        version,
        definitions,
        order,
        places,
        source_length: size,
    })
}

fn refusal(alloc: Global, fault: Fault<Break>) -> Fault<Refusal>
    ensures { IsRefusalOf fault result }
{
    match fault {
        Fault::Refused(broken) => Fault::Refused(Refusal::of(alloc, broken)),
        Fault::NoMemory => Fault::NoMemory,
    }
}

fn size_of(source: &[u8]) -> u32
    requires { length source.now ≤ 1048576 }
    ensures { result ≡ length source.now }
{
    source.len() as u32
}

/// The parts of a text whose forms are typed, or its first break before functions that write are
/// looked for.
fn typed_text(
    alloc: Global,
    deployed: &Deployed,
    principal: &Principal,
    source: &[u8],
    version: Version,
) -> Result<Parts, Fault<Refusal>>
    ensures found { IfOk result
        (λ c. StandsForTyped deployed.now principal.now (text_of source.now version) c) }
    ensures own { IfOk result (λ c. HaveOwnNames c.version (forms_of c)) }
    ensures indexed { IfOk result (λ c. IsIndexed c) }
    ensures principal { IfOk result (λ c. c.principal ≡ principal.now) }
    ensures version { IfOk result (λ c. c.version ≡ version) }
    ensures length { IfOk result (λ c. c.source_length ≡ length source.now) }
    ensures small { IfOk result (λ c. c.source_length ≤ 1048576) }
    ensures broken { IfRefused result
        (λ r. IsFirstBreak deployed.now principal.now (text_of source.now version) r) }
{
    deployed.are_known();
    the_plain_program_is_right();
    forms_of_texts_are_decided();
    let program = match ordered_forms(alloc, deployed.hash_key(), source, version) {
        Ok(program) => program,
        Err(fault) => return Err(fault),
    };
    let done = match typed(alloc, deployed, principal, version, &program) {
        Ok(done) => done,
        Err(fault) => return Err(refusal(alloc, fault)),
    };
    let parts = made(alloc, principal, version, size_of(source), program, done)?;
    Ok(parts)
}

/// The contract of a text of this version under this principal, which fits the deployed contracts:
/// its definitions with typed trees. Or the first rule that the text breaks, with its span, and for
/// a cycle the names of the forms in it: of texts, forms and their order, of typing, or C25
/// `WritesInReadOnly`.
///
/// It recurs only into brackets. The time is near linear in the text, if who wrote it doesn't know
/// the key by which the tables of the deployed contracts hash.
pub fn check(
    alloc: Global,
    deployed: &Deployed,
    principal: &Principal,
    source: &[u8],
    version: Version,
) -> Result<Checked, Fault<Refusal>>
    ensures found { IfOk result
        (λ c. IsContractOf deployed.now principal.now (text_of source.now version) c) }
    ensures fits { IfOk result (λ c. FitsAfter deployed.now c) }
    ensures principal { IfOk result (λ c. c.principal ≡ principal.now) }
    ensures version { IfOk result (λ c. c.version ≡ version) }
    ensures length { IfOk result (λ c. c.source_length ≡ length source.now) }
    ensures broken { IfRefused result
        (λ r. IsFirstBreak deployed.now principal.now (text_of source.now version) r) }
{
    deployed.are_known();
    let parts = match typed_text(alloc, deployed, principal, source, version) {
        Ok(parts) => parts,
        Err(fault) => return Err(fault),
    };
    let writing = match first_writing(alloc, deployed, &parts) {
        Ok(writing) => writing,
        Err(_) => return Err(Fault::NoMemory),
    };
    match writing {
        Some(span) => {
            let broken = Break {
                rule: Rule::WritesInReadOnly,
                span,
            };
            Err(refusal(alloc, Fault::Refused(broken)))
        }
        None => Ok(Checked::new(parts)),
    }
}
