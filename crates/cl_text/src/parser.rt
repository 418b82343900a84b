//! Reading one literal.
ghost use Rattle.std.specs.Prelude.{◌≡◌, ◌≤◌, true, IfOk, IfErr};
ghost use Rattle.cl_types.specs.Fault.{IfRefused};
ghost use Rattle.cl_sexpr.specs.Tree.{forest, tree_depth, forest_depth, span_of};
ghost use Rattle.cl_values.specs.Tree.{depth_of};
ghost use Rattle.cl_values.specs.Valid.{has_rising_keys, has_good_texts};
ghost use Rattle.cl_text.specs.Literal.{literal};
ghost use Rattle.cl_text.specs.Spelled.{is_spelled, are_spelled};
ghost use Rattle.cl_text.specs.Parsed.{Reading, Stands, Parses, within_limits, value_outcome, items_outcome, outcome_of, HasNoNames};

use crate::TextRefusal;
use crate::literal::literal;
use cl_sexpr::{Sexpr, Span, read};
use cl_types::Fault;
use cl_values::{Val, Value, ValueRefusal};
use std::alloc::Global;

// A literal's keys rise, and its strings hold characters that a text can spell.
fn within_limits(span: Span, value: Value) -> Result<Val, TextRefusal>
    requires depth { depth_of value ≤ 128 }
    requires keys { has_rising_keys value ≡ true }
    requires texts { has_good_texts value ≡ true }
    ensures found { IfOk result (λ v. within_limits span value ≡ Stands v) }
    ensures broken { IfErr result (λ r. within_limits span value ≡ outcome_of r) }
    ensures nameless { IfErr result HasNoNames }
{
    match Val::make(value) {
        Ok(v) => Ok(v),
        Err(ValueRefusal::TooDeep) => Err(TextRefusal::TooDeep { span }),
        Err(ValueRefusal::TooLarge) => Err(TextRefusal::TooLarge { span }),
        Err(ValueRefusal::BadTuple) => unreachable!(),
        Err(ValueRefusal::BadText) => unreachable!(),
    }
}

fn item_value(alloc: Global, item: &Sexpr) -> Result<Val, Fault<TextRefusal>>
    requires depth { tree_depth item.now ≤ 64 }
    requires spelled { is_spelled item.now ≡ true }
    ensures found { IfOk result (λ v. value_outcome (span_of item.now) (literal item.now) ≡ Stands v) }
    ensures broken { IfRefused result
        (λ r. value_outcome (span_of item.now) (literal item.now) ≡ outcome_of r) }
    ensures nameless { IfRefused result HasNoNames }
{
    match literal(alloc, item) {
        Ok(value) => within_limits(item.span, value).map_err(Fault::Refused),
        Err(Fault::Refused(span)) => Err(Fault::Refused(TextRefusal::NotALiteral { span })),
        Err(Fault::NoMemory) => Err(Fault::NoMemory),
    }
}

// The value of the items of a text of so many bytes.
fn items_value(alloc: Global, size: u32, items: &[Sexpr]) -> Result<Val, Fault<TextRefusal>>
    requires depth { forest_depth (forest items.now) ≤ 64 }
    requires spelled { are_spelled (forest items.now) ≡ true }
    ensures found { IfOk result (λ v. items_outcome size (forest items.now) ≡ Stands v) }
    ensures broken { IfRefused result (λ r. items_outcome size (forest items.now) ≡ outcome_of r) }
    ensures nameless { IfRefused result HasNoNames }
{
    let span = Span {
        start: 0,
        end: size,
    };
    let Some((item, others)) = items.split_first() else {
        return Err(Fault::Refused(TextRefusal::NotALiteral { span }));
    };
    if !others.is_empty() {
        return Err(Fault::Refused(TextRefusal::NotALiteral { span }));
    }
    item_value(alloc, item)
}

/// The value of a text that is one literal, with separators and comments around it, or the first
/// refusal that holds.
///
/// A literal is a number, buffer, string or principal; `true`, `false`, `none`; `(ok v)`,
/// `(err v)`, `(some v)`, `(list v ..)`; a tuple `{k: v, ..}` or `(tuple (k v) ..)`, with distinct
/// keys in any order.
pub fn parse(alloc: Global, text: &[u8]) -> Result<Val, Fault<TextRefusal>>
    ensures found { IfOk result (λ v. Parses text.now (Stands v)) }
    ensures broken { IfRefused result (λ r. Parses text.now (outcome_of r)) }
    ensures nameless { IfRefused result HasNoNames }
{
    match read(alloc, text) {
        Ok(items) => items_value(alloc, text.len() as u32, &items),
        Err(Fault::Refused(refusal)) => Err(Fault::Refused(TextRefusal::Syntax(refusal))),
        Err(Fault::NoMemory) => Err(Fault::NoMemory),
    }
}
