//! The natives that decide which of their parts are evaluated.
ghost use Rattle.std.specs.Prelude.{◌≡◌, IfOk, Some, None};
ghost use Rattle.cl_audit_steps.specs.declared.step.Part.TheVariants.{Ends};
ghost use Rattle.cl_audit_steps.specs.declared.step.Last.TheVariants.{Wrong};
ghost use Rattle.cl_meaning.specs.Scope.{Scope};
ghost use Rattle.cl_meaning.specs.Control.{if_form, begin_form, and_form, or_form, asserts_form, unwrap_form, unwrap_err_form, try_form, let_form, match_form, as_contract_form};
ghost use Rattle.cl_shapes.specs.declared.name.CostName.TheVariants.{Control};
ghost use Rattle.cl_audit_steps.specs.Steps.{IsStart};

use crate::charge::Charge;
use crate::items::{MatchParts, list_and_rest, match_parts, one, three, two};
use crate::step::{Chain, Last, OnAll, OnOne, Part, Start};
use cl_sexpr::Sexpr;
use cl_shapes::CostName;
use cl_types::NoMemory;

/// The charge for so many arguments.
fn control(count: usize) -> Result<Option<Charge>, NoMemory>
    ensures { IfOk result (λ c. c ≡ Some (Control, count)) }
{
    Ok(Some(Charge::at(CostName::Control, count as u64)?))
}

/// A node that is wrong.
pub(crate) fn wrong<'a>() -> Start<'a>
    ensures { result ≡ record { charge = None; part = Ends Wrong } }
{
    Start {
        charge: None,
        part: Part::Ends(Last::Wrong),
    }
}

/// `if`
pub(crate) fn if_start(items: &[Sexpr]) -> Result<Start, NoMemory>
    ensures { (S : Scope) → IsStart S (λ take enter s. if_form take S items.now s) result }
{
    let Some((test, first, second)) = three(items) else {
        return Ok(wrong());
    };
    Ok(Start {
        charge: control(3)?,
        part: Part::One(test, OnOne::Choose(first, second)),
    })
}

/// `begin`
pub(crate) fn begin_start(items: &[Sexpr]) -> Result<Start, NoMemory>
    ensures { (S : Scope) → IsStart S (λ take enter s. begin_form take S items.now s) result }
{
    Ok(Start {
        charge: control(items.len())?,
        part: Part::All(items, OnAll::Last),
    })
}

/// `and`
pub(crate) fn and_start(items: &[Sexpr]) -> Result<Start, NoMemory>
    ensures { (S : Scope) → IsStart S (λ take enter s. and_form take S items.now s) result }
{
    if items.is_empty() {
        return Ok(wrong());
    }
    Ok(Start {
        charge: control(items.len())?,
        part: Part::Truths(Chain::And, items),
    })
}

/// `or`
pub(crate) fn or_start(items: &[Sexpr]) -> Result<Start, NoMemory>
    ensures { (S : Scope) → IsStart S (λ take enter s. or_form take S items.now s) result }
{
    if items.is_empty() {
        return Ok(wrong());
    }
    Ok(Start {
        charge: control(items.len())?,
        part: Part::Truths(Chain::Or, items),
    })
}

/// `asserts!`
pub(crate) fn asserts_start(items: &[Sexpr]) -> Result<Start, NoMemory>
    ensures { (S : Scope) → IsStart S (λ take enter s. asserts_form take S items.now s) result }
{
    let Some((test, thrown)) = two(items) else {
        return Ok(wrong());
    };
    Ok(Start {
        charge: control(2)?,
        part: Part::One(test, OnOne::Assert(thrown)),
    })
}

/// `unwrap!`
pub(crate) fn unwrap_start(items: &[Sexpr]) -> Result<Start, NoMemory>
    ensures { (S : Scope) → IsStart S (λ take enter s. unwrap_form take S items.now s) result }
{
    let Some((whole, thrown)) = two(items) else {
        return Ok(wrong());
    };
    Ok(Start {
        charge: control(2)?,
        part: Part::One(whole, OnOne::Unwrap(thrown)),
    })
}

/// `unwrap-err!`
pub(crate) fn unwrap_err_start(items: &[Sexpr]) -> Result<Start, NoMemory>
    ensures { (S : Scope) → IsStart S (λ take enter s. unwrap_err_form take S items.now s) result }
{
    let Some((whole, thrown)) = two(items) else {
        return Ok(wrong());
    };
    Ok(Start {
        charge: control(2)?,
        part: Part::One(whole, OnOne::UnwrapErr(thrown)),
    })
}

/// `try!`
pub(crate) fn try_start(items: &[Sexpr]) -> Result<Start, NoMemory>
    ensures { (S : Scope) → IsStart S (λ take enter s. try_form take S items.now s) result }
{
    let Some(whole) = one(items) else {
        return Ok(wrong());
    };
    Ok(Start {
        charge: control(1)?,
        part: Part::One(whole, OnOne::Try),
    })
}

/// `let`
pub(crate) fn let_start(items: &[Sexpr]) -> Result<Start, NoMemory>
    ensures { (S : Scope) → IsStart S (λ take enter s. let_form take S items.now s) result }
{
    let Some((bindings, body)) = list_and_rest(items) else {
        return Ok(wrong());
    };
    Ok(Start {
        charge: control(items.len())?,
        part: Part::Let(bindings, body),
    })
}

/// `as-contract`
pub(crate) fn as_contract_start(items: &[Sexpr]) -> Result<Start, NoMemory>
    ensures { (S : Scope) → IsStart S (λ take enter s. as_contract_form take S items.now s) result }
{
    let Some(item) = one(items) else {
        return Ok(wrong());
    };
    Ok(Start {
        charge: control(1)?,
        part: Part::Ends(Last::AsContract(item)),
    })
}

/// `match`
pub(crate) fn match_start(items: &[Sexpr]) -> Result<Start, NoMemory>
    ensures { (S : Scope) → IsStart S (λ take enter s. match_form take S items.now s) result }
{
    match match_parts(items) {
        Some(MatchParts::Optional(item, name, some, none)) => Ok(Start {
            charge: control(4)?,
            part: Part::One(item, OnOne::Optional(name, some, none)),
        }),
        Some(MatchParts::Response(item, ok_name, ok, err_name, err)) => Ok(Start {
            charge: control(5)?,
            part: Part::One(item, OnOne::Response(ok_name, ok, err_name, err)),
        }),
        None => Ok(wrong()),
    }
}
