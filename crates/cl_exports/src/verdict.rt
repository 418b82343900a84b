//! What comes of a source before it is deployed, in numbers.
ghost use Rattle.std.specs.Prelude.{◌≡◌, ◌++◌, IfOk, min, ◌^◌, ◌-◌};
ghost use Rattle.std.specs.List.{flat_map};
ghost use Rattle.cl_exports.specs.Verdicts.{at_most, bounds_numbers, cost_numbers, dimension_line, function_line, function_numbers, line, refusal_lines, verdict_numbers, verdict_text};

use cl_sexpr::Rule;
use cl_shapes::Cost5;
use cl_tx::{Bounds, SourceRefusal};
use cl_types::{Name, NoMemory};
use std::alloc::Global;

/// What comes of a source as a contract, before it is evaluated.
#[derive(Drop)]
pub enum Verdict {
    /// It is accepted, with these bounds.
    Accepted(Bounds),
    /// It breaks a rule.
    Refused(SourceRefusal),
}

/// The number as a limit: 2^64-1 where it is above.
fn at_most(n: u128) -> u64
    ensures { result ≡ at_most n }
{
    if n > u128::from(u64::MAX) {
        u64::MAX
    } else {
        n as u64
    }
}

/// Adds the numbers of a cost.
fn push_cost(numbers: &mut Vec<u64>, cost: &Cost5) -> Result<(), NoMemory>
    ensures { IfOk result (λ _. numbers.new.items ≡ numbers.old.items ++ cost_numbers cost.now) }
{
    let five = [
        at_most(cost.runtime),
        at_most(cost.read_count),
        at_most(cost.read_length),
        at_most(cost.write_count),
        at_most(cost.write_length),
    ];
    numbers.extend_from_slice(&five)?;
    Ok(())
}

/// Adds the numbers of functions.
fn push_functions(numbers: &mut Vec<u64>, functions: &[(Name, Cost5)]) -> Result<(), NoMemory>
    ensures { IfOk result (λ _. numbers.new.items
        ≡ numbers.old.items ++ flat_map function_numbers functions.now) }
{
    for function in functions {
        push_cost(numbers, &function.1)?;
    }
    Ok(())
}

/// The numbers of bounds: the deployment's, and behind them those of each function.
fn numbers_of_bounds(alloc: Global, bounds: &Bounds) -> Result<Vec<u64>, NoMemory>
    ensures { IfOk result (λ numbers. numbers.items ≡ bounds_numbers bounds.now) }
{
    let mut numbers = Vec::new(alloc);
    push_cost(&mut numbers, &bounds.deploy)?;
    push_functions(&mut numbers, bounds.functions.as_slice())?;
    Ok(numbers)
}

/// The place of the rule that is broken: where its bytes begin and end.
fn numbers_of_refusal(alloc: Global, refusal: &SourceRefusal) -> Result<Vec<u64>, NoMemory>
    ensures { IfOk result (λ numbers. numbers.items ≡ verdict_numbers (Verdict.Refused refusal.now)) }
{
    let span = refusal.refusal().span;
    let place = [u64::from(span.start), u64::from(span.end)];
    Ok(Vec::from_slice(alloc, &place)?)
}

/// The numbers of a verdict.
pub(crate) fn numbers_of(alloc: Global, verdict: &Verdict) -> Result<Vec<u64>, NoMemory>
    ensures { IfOk result (λ numbers. numbers.items ≡ verdict_numbers verdict.now) }
{
    match verdict {
        Verdict::Accepted(bounds) => numbers_of_bounds(alloc, bounds),
        Verdict::Refused(refusal) => numbers_of_refusal(alloc, refusal),
    }
}

/// Adds a line.
fn push_line(text: &mut Vec<u8>, bytes: &[u8]) -> Result<(), NoMemory>
    ensures { IfOk result (λ _. text.new.items ≡ text.old.items ++ line bytes.now) }
{
    text.extend_from_slice(bytes)?;
    text.push(b'\n')?;
    Ok(())
}

/// The names of functions, each in a line.
fn text_of_functions(alloc: Global, functions: &[(Name, Cost5)]) -> Result<Vec<u8>, NoMemory>
    ensures { IfOk result (λ text. text.items ≡ flat_map function_line functions.now) }
{
    let mut text = Vec::new(alloc);
    for function in functions {
        push_line(&mut text, function.0.bytes())?;
    }
    Ok(text)
}

/// Adds names, each as a line.
fn push_names(text: &mut Vec<u8>, names: &[Name]) -> Result<(), NoMemory>
    ensures { IfOk result (λ _. text.new.items ≡ text.old.items ++ flat_map line names.now) }
{
    for name in names {
        push_line(text, name.bytes())?;
    }
    Ok(())
}

/// Adds the dimension of a bound that is too large.
fn push_dimension(text: &mut Vec<u8>, rule: Rule) -> Result<(), NoMemory>
    ensures { IfOk result (λ _. text.new.items ≡ text.old.items ++ dimension_line rule) }
{
    match rule {
        Rule::BoundTooLarge(dimension) => push_line(text, dimension.name().as_bytes()),
        _ => Ok(()),
    }
}

/// The rule that is broken, and behind it the names of a cycle, or the dimension of a bound.
fn text_of_refusal(alloc: Global, refusal: &SourceRefusal) -> Result<Vec<u8>, NoMemory>
    ensures { IfOk result (λ text. text.items ≡ refusal_lines refusal.now) }
{
    let refusal = refusal.refusal();
    let mut text = Vec::new(alloc);
    push_line(&mut text, refusal.rule.text().as_bytes())?;
    push_names(&mut text, &refusal.names)?;
    push_dimension(&mut text, refusal.rule)?;
    Ok(text)
}

/// The lines of a verdict.
pub(crate) fn lines_of(alloc: Global, verdict: &Verdict) -> Result<Vec<u8>, NoMemory>
    ensures { IfOk result (λ text. text.items ≡ verdict_text verdict.now) }
{
    match verdict {
        Verdict::Accepted(bounds) => text_of_functions(alloc, bounds.functions.as_slice()),
        Verdict::Refused(refusal) => text_of_refusal(alloc, refusal),
    }
}
