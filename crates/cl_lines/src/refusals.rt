//! How aborts and refusals print.
ghost use Rattle.std.specs.Prelude.{◌≡◌, ◌++◌, ◌∷◌, [], IfOk, codes, string_bytes};
ghost use Rattle.cl_shapes.specs.Costs.{dimension_name};
ghost use Rattle.cl_lines.specs.Refusals.{names_text, dimension_text, span_text, refusal_text, stop_text, entry_refusal_text};

use cl_sexpr::{Rule, Span};
use cl_shapes::{Dimension, Over};
use cl_tx::{EntryRefusal, SourceRefusal, Stop};
use cl_types::{Name, NoMemory};
use std::alloc::{AllocError, Global};

#[tactic(auto, unfolding(crate::specs::Refusals::span_text))]
fn span_text(alloc: Global, span: Span) -> Result<String, AllocError>
    ensures { IfOk result (λ text. string_bytes text ≡ span_text span) }
{
    let Span { start, end } = span;
    format!(in alloc; " {start}..{end}")
}

// A name behind a space.
fn write_name(out: &mut Vec<u8>, name: &[u8]) -> Result<(), AllocError>
    ensures { IfOk result (λ _. out.new.items ≡ out.old.items ++ names_text (name.now ∷ [])) }
{
    out.push(b' ')?;
    out.extend_from_slice(name)?;
    Ok(())
}

fn write_names(out: &mut Vec<u8>, names: &[Name]) -> Result<(), AllocError>
    ensures { IfOk result (λ _. out.new.items ≡ out.old.items ++ names_text names.now) }
{
    for name in names {
        write_name(out, name.bytes())?;
    }
    Ok(())
}

fn write_dimension(out: &mut Vec<u8>, rule: Rule) -> Result<(), AllocError>
    ensures { IfOk result (λ _. out.new.items ≡ out.old.items ++ dimension_text rule) }
{
    match rule {
        Rule::BoundTooLarge(dimension) => write_name(out, dimension.name().as_bytes()),
        _ => Ok(()),
    }
}

/// Writes the rule that a source breaks, with its span and names.
#[tactic(auto, unfolding(crate::specs::Refusals::refusal_text))]
pub(crate) fn write_refusal(
    out: &mut Vec<u8>,
    alloc: Global,
    refusal: &SourceRefusal,
) -> Result<(), NoMemory>
    ensures { IfOk result (λ _. out.new.items ≡ out.old.items ++ refusal_text refusal.now) }
{
    let refusal = refusal.refusal();
    out.extend_from_slice(refusal.rule.text().as_bytes())?;
    let span = span_text(alloc, refusal.span)?;
    out.extend_from_slice(span.as_bytes())?;
    drop(span);
    write_names(out, &refusal.names)?;
    write_dimension(out, refusal.rule)?;
    Ok(())
}

#[tactic(auto, unfolding(crate::specs::Refusals::stop_text))]
fn limit_text(alloc: Global, over: Over) -> Result<String, AllocError>
    ensures { IfOk result (λ text. string_bytes text ≡ stop_text (Stop.CostLimit over)) }
{
    let name = over.dimension.name();
    let attempted = over.attempted.part(over.dimension);
    let limit = over.limit;
    format!(in alloc; "A8 CostLimit {name} {attempted} {limit}")
}

/// Why an entry stops in the middle.
#[tactic(auto, unfolding(crate::specs::Refusals::stop_text))]
pub fn stop_text(alloc: Global, stop: Stop) -> Result<String, AllocError>
    ensures { IfOk result (λ text. string_bytes text ≡ stop_text stop) }
{
    match stop {
        Stop::Overflow => String::from_str(alloc, "A1 Overflow"),
        Stop::Underflow => String::from_str(alloc, "A2 Underflow"),
        Stop::DivideByZero => String::from_str(alloc, "A3 DivideByZero"),
        Stop::NegativeArgument => String::from_str(alloc, "A4 NegativeArgument"),
        Stop::Panic => String::from_str(alloc, "A5 Panic"),
        Stop::SupplyOverflow => String::from_str(alloc, "A6 SupplyOverflow"),
        Stop::EarlyTop => String::from_str(alloc, "A7 EarlyTop"),
        Stop::CostLimit(over) => limit_text(alloc, over),
        Stop::PostCondition { index } => format!(in alloc; "A9 PostCondition {index}"),
    }
}

#[tactic(auto, unfolding(crate::specs::Refusals::entry_refusal_text))]
fn write_argument(out: &mut Vec<u8>, alloc: Global, index: u32) -> Result<(), NoMemory>
    ensures { IfOk result (λ _. out.new.items
        ≡ out.old.items ++ entry_refusal_text (EntryRefusal.Argument index)) }
{
    let text = format!(in alloc; "E5 Argument {index}")?;
    out.extend_from_slice(text.as_bytes())?;
    Ok(())
}

fn write_contract_refused(
    out: &mut Vec<u8>,
    alloc: Global,
    refusal: &SourceRefusal,
) -> Result<(), NoMemory>
    ensures { IfOk result (λ _. out.new.items
        ≡ out.old.items ++ (codes "E7 ContractRefused " ++ refusal_text refusal.now)) }
{
    out.extend_from_slice(b"E7 ContractRefused ")?;
    write_refusal(out, alloc, refusal)
}

fn write_no_bound(out: &mut Vec<u8>, dimension: Dimension) -> Result<(), NoMemory>
    ensures { IfOk result (λ _. out.new.items
        ≡ out.old.items ++ (codes "E8 NoBound " ++ dimension_name dimension)) }
{
    out.extend_from_slice(b"E8 NoBound ")?;
    out.extend_from_slice(dimension.name().as_bytes())?;
    Ok(())
}

/// Writes why an entry isn't run.
#[tactic(auto, unfolding(crate::specs::Refusals::entry_refusal_text))]
pub fn write_entry_refusal(
    out: &mut Vec<u8>,
    alloc: Global,
    refusal: &EntryRefusal,
) -> Result<(), NoMemory>
    ensures { IfOk result (λ _. out.new.items ≡ out.old.items ++ entry_refusal_text refusal.now) }
{
    match refusal {
        EntryRefusal::NoContract => out.extend_from_slice(b"E1 NoContract")?,
        EntryRefusal::NoFunction => out.extend_from_slice(b"E2 NoFunction")?,
        EntryRefusal::NotPublic => out.extend_from_slice(b"E3 NotPublic")?,
        EntryRefusal::ArgumentCount => out.extend_from_slice(b"E4 ArgumentCount")?,
        EntryRefusal::Argument { index } => write_argument(out, alloc, *index)?,
        EntryRefusal::NameTaken => out.extend_from_slice(b"E6 NameTaken")?,
        EntryRefusal::ContractRefused(refusal) => write_contract_refused(out, alloc, refusal)?,
        EntryRefusal::NoBound(dimension) => write_no_bound(out, *dimension)?,
    }
    Ok(())
}
