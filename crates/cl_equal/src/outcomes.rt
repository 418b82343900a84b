//! Outcomes of entries.
ghost use Rattle.std.specs.Prelude.{◌≡◌, ◌↔◌, IsTrue};
ghost use Rattle.cl_sexpr.specs.declared.rule.Rule.TheVariants.{BoundTooLarge};
ghost use Rattle.cl_tx.specs.Seen.{SourceBreak};
ghost use Rattle.cl_tx.specs.declared.outcome.EntryRefusal.TheVariants.{Argument, ContractRefused, NoBound};
ghost use Rattle.cl_tx.specs.declared.outcome.Outcome.TheVariants.{Aborted, Bad, Good, Plain, Refused};
ghost use Rattle.cl_tx.specs.declared.outcome.Stop.TheVariants.{CostLimit, PostCondition};

use crate::parts::{Compared, equal_dimensions, equal_lists};
use cl_sexpr::{Rule, Span};
use cl_shapes::{Dimension, Over};
use cl_tx::{EntryRefusal, Outcome, SourceRefusal, Stop};
use cl_values::{Val, equal};

fn equal_overs(first: &Over, second: &Over) -> bool
    ensures { IsTrue result ↔ (first.now ≡ second.now) }
{
    equal_dimensions(first.dimension, second.dimension)
        && first.attempted.equals(&second.attempted)
        && first.limit == second.limit
}

/// Whether an entry stopped at this limit.
fn is_cost_limit(stop: &Stop, over: &Over) -> bool
    ensures { IsTrue result ↔ (stop.now ≡ CostLimit over.now) }
{
    match stop {
        Stop::CostLimit(other) => equal_overs(other, over),
        _ => false,
    }
}

/// Whether an entry stopped at this post-condition.
fn is_post_condition(stop: &Stop, place: u32) -> bool
    ensures { IsTrue result ↔ (stop.now ≡ PostCondition place) }
{
    match stop {
        Stop::PostCondition { index } => *index == place,
        _ => false,
    }
}

fn equal_stops(first: &Stop, second: &Stop) -> bool
    ensures { IsTrue result ↔ (first.now ≡ second.now) }
{
    match first {
        Stop::Overflow => matches!(second, Stop::Overflow),
        Stop::Underflow => matches!(second, Stop::Underflow),
        Stop::DivideByZero => matches!(second, Stop::DivideByZero),
        Stop::NegativeArgument => matches!(second, Stop::NegativeArgument),
        Stop::Panic => matches!(second, Stop::Panic),
        Stop::SupplyOverflow => matches!(second, Stop::SupplyOverflow),
        Stop::EarlyTop => matches!(second, Stop::EarlyTop),
        Stop::CostLimit(over) => is_cost_limit(second, over),
        Stop::PostCondition { index } => is_post_condition(second, *index),
    }
}

/// Whether a rule is the one on bounds in this dimension.
fn is_bound_too_large(rule: Rule, dimension: Dimension) -> bool
    ensures { IsTrue result ↔ (rule ≡ BoundTooLarge dimension) }
{
    match rule {
        Rule::BoundTooLarge(other) => equal_dimensions(other, dimension),
        _ => false,
    }
}

/// Whether two rules are one. But for the dimension of a bound they differ by their texts.
fn equal_rules(first: Rule, second: Rule) -> bool
    ensures { IsTrue result ↔ (first ≡ second) }
{
    match first {
        Rule::BoundTooLarge(dimension) => is_bound_too_large(second, dimension),
        _ => first.text() == second.text(),
    }
}

fn equal_spans(first: Span, second: Span) -> bool
    ensures { IsTrue result ↔ (first ≡ second) }
{
    first.start == second.start && first.end == second.end
}

fn equal_sources(first: &SourceRefusal, second: &SourceRefusal) -> bool
    ensures { IsTrue result ↔ (first.now ≡ second.now) }
{
    let one = first.refusal();
    let other = second.refusal();
    equal_rules(one.rule, other.rule)
        && equal_spans(one.span, other.span)
        && equal_lists(&one.names, &other.names)
}

/// Whether an entry was refused for this argument.
fn is_argument(refusal: &EntryRefusal, place: u32) -> bool
    ensures { IsTrue result ↔ (refusal.now ≡ Argument place) }
{
    match refusal {
        EntryRefusal::Argument { index } => *index == place,
        _ => false,
    }
}

/// Whether a deployment was refused for its source so.
fn is_contract_refused(refusal: &EntryRefusal, source: &SourceRefusal) -> bool
    ensures { IsTrue result ↔ (refusal.now ≡ ContractRefused source.now) }
{
    match refusal {
        EntryRefusal::ContractRefused(other) => equal_sources(other, source),
        _ => false,
    }
}

/// Whether an entry was refused for a bound in this dimension.
fn is_no_bound(refusal: &EntryRefusal, dimension: Dimension) -> bool
    ensures { IsTrue result ↔ (refusal.now ≡ NoBound dimension) }
{
    match refusal {
        EntryRefusal::NoBound(other) => equal_dimensions(*other, dimension),
        _ => false,
    }
}

fn equal_refusals(first: &EntryRefusal, second: &EntryRefusal) -> bool
    ensures { IsTrue result ↔ (first.now ≡ second.now) }
{
    match first {
        EntryRefusal::NoContract => matches!(second, EntryRefusal::NoContract),
        EntryRefusal::NoFunction => matches!(second, EntryRefusal::NoFunction),
        EntryRefusal::NotPublic => matches!(second, EntryRefusal::NotPublic),
        EntryRefusal::ArgumentCount => matches!(second, EntryRefusal::ArgumentCount),
        EntryRefusal::Argument { index } => is_argument(second, *index),
        EntryRefusal::NameTaken => matches!(second, EntryRefusal::NameTaken),
        EntryRefusal::ContractRefused(source) => is_contract_refused(second, source),
        EntryRefusal::NoBound(dimension) => is_no_bound(second, *dimension),
    }
}

/// Whether an entry answered ok with this value.
fn is_good(outcome: &Outcome, value: &Val) -> bool
    ensures { IsTrue result ↔ (outcome.now ≡ Good value.now) }
{
    match outcome {
        Outcome::Good(other) => equal(other, value),
        _ => false,
    }
}

/// Whether an entry answered err with this value.
fn is_bad(outcome: &Outcome, value: &Val) -> bool
    ensures { IsTrue result ↔ (outcome.now ≡ Bad value.now) }
{
    match outcome {
        Outcome::Bad(other) => equal(other, value),
        _ => false,
    }
}

/// Whether an entry gave this value, which is no response.
fn is_plain(outcome: &Outcome, value: &Val) -> bool
    ensures { IsTrue result ↔ (outcome.now ≡ Plain value.now) }
{
    match outcome {
        Outcome::Plain(other) => equal(other, value),
        _ => false,
    }
}

/// Whether an entry stopped so.
fn is_aborted(outcome: &Outcome, stop: &Stop) -> bool
    ensures { IsTrue result ↔ (outcome.now ≡ Aborted stop.now) }
{
    match outcome {
        Outcome::Aborted(other) => equal_stops(other, stop),
        _ => false,
    }
}

/// Whether an entry was refused so.
fn is_refused(outcome: &Outcome, refusal: &EntryRefusal) -> bool
    ensures { IsTrue result ↔ (outcome.now ≡ Refused refusal.now) }
{
    match outcome {
        Outcome::Refused(other) => equal_refusals(other, refusal),
        _ => false,
    }
}

pub(crate) fn equal_outcomes(first: &Outcome, second: &Outcome) -> bool
    ensures { IsTrue result ↔ (first.now ≡ second.now) }
{
    match first {
        Outcome::Moved => matches!(second, Outcome::Moved),
        Outcome::Done => matches!(second, Outcome::Done),
        Outcome::Good(value) => is_good(second, value),
        Outcome::Bad(value) => is_bad(second, value),
        Outcome::Plain(value) => is_plain(second, value),
        Outcome::Aborted(stop) => is_aborted(second, stop),
        Outcome::Refused(refusal) => is_refused(second, refusal),
    }
}
