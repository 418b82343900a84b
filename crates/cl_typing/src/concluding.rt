//! What is found of an expression from what is found of its parts.
ghost use Rattle.std.specs.Prelude.{◌≡◌, suc, max, Option, Some};
ghost use Rattle.cl_rules.specs.Verdicts.{thrown_after};
ghost use Rattle.cl_typing.specs.Verdicts.{counted, heights, throws_of, first_with, fault_with, ConcludesAs, ThrowsOn, Throws};

use cl_code::Code;
use cl_sexpr::Rule;
use cl_types::{Fault, SizedTy, TyRefusal, lub};
use std::alloc::Global;

/// A typed tree with the type of what it may throw, and its height, up to the end of its type.
pub struct Checked {
    pub code: Code,
    pub thrown: Option<SizedTy>,
    pub height: u32,
}

impl Drop for Checked {
    fn drop(self) {
        let Checked {
            code,
            thrown,
            height: _,
        } = self;
        drop(code);
        drop(thrown);
    }
}

impl Checked {
    /// The tree, given away.
    pub fn into_code(self) -> Code
        ensures { result ≡ self.code }
    {
        let Checked {
            code,
            thrown: _,
            height: _,
        } = self;
        code
    }
}

/// What is found of a node, but its tree.
#[derive(Drop)]
pub struct Concluded {
    pub ty: SizedTy,
    pub thrown: Option<SizedTy>,
    pub height: u32,
}

/// One level above what is applied and all parts.
fn height_above(applied: u32, parts: &[Checked]) -> u32
    ensures { result ≡ counted (suc (max applied (heights parts.now))) }
{
    let mut greatest = applied;
    for part in parts {
        greatest = greatest.max(part.height);
    }
    greatest.saturating_add(1)
}

/// The least supertype of what was thrown so far and of what is thrown next.
fn and_thrown(
    alloc: Global,
    so_far: Option<SizedTy>,
    next: &Option<SizedTy>,
) -> Result<Option<SizedTy>, Fault<TyRefusal>>
    ensures { ThrowsOn so_far next.now result }
{
    let Some(next) = next else {
        return Ok(so_far);
    };
    match so_far {
        None => {
            let next = next.copy(alloc)?;
            Ok(Some(next))
        }
        Some(so_far) => {
            let joined = lub(alloc, &so_far, next)?;
            Ok(Some(joined))
        }
    }
}

/// What the parts throw, and then the node itself.
fn thrown_by(
    alloc: Global,
    parts: &[Checked],
    own: &Option<SizedTy>,
) -> Result<Option<SizedTy>, Fault<TyRefusal>>
    ensures { Throws (thrown_after None (throws_of parts.now own.now)) result }
{
    let mut thrown = None;
    for part in parts {
        if part.thrown.is_none() {
            continue;
        }
        match and_thrown(alloc, thrown, &part.thrown) {
            Ok(joined) => thrown = joined,
            Err(fault) => return Err(fault),
        }
    }
    and_thrown(alloc, thrown, own)
}

/// The first of a rule that is broken at the types, and of the one that what is thrown breaks.
fn first_with(rule: Rule, thrown: TyRefusal) -> Rule
    ensures { result ≡ first_with rule thrown }
{
    match thrown {
        TyRefusal::Differ => match rule {
            Rule::UnusedResponse | Rule::NoSuchKey => Rule::ThrownDiffer,
            rule => rule,
        },
        _ => match rule {
            Rule::ArgumentKind | Rule::NotSame => rule,
            _ => Rule::TooLarge,
        },
    }
}

fn fault_with(fault: Fault<Rule>, thrown: TyRefusal) -> Fault<Rule>
    ensures { result ≡ fault_with fault thrown }
{
    match fault {
        Fault::Refused(rule) => Fault::Refused(first_with(rule, thrown)),
        Fault::NoMemory => Fault::NoMemory,
    }
}

/// The rule that what is thrown breaks, where nothing else is broken.
fn thrown_rule(thrown: TyRefusal) -> Rule
    ensures { result ≡ first_with Rule.NoSuchKey thrown }
{
    match thrown {
        TyRefusal::Differ => Rule::ThrownDiffer,
        _ => Rule::TooLarge,
    }
}

/// What is found of a node by the type that its row gives, what it throws itself, and the height of what it applies.
#[tactic(auto, using(crate::proofs::Conclusions::holds_at, crate::proofs::Conclusions::thrown_fails, crate::proofs::Conclusions::ruled_fails, crate::proofs::Conclusions::both_fail))]
pub fn conclude(
    alloc: Global,
    ruled: Result<SizedTy, Fault<Rule>>,
    own: &Option<SizedTy>,
    applied: u32,
    parts: &[Checked],
) -> Result<Concluded, Fault<Rule>>
    ensures { ConcludesAs ruled own.now applied parts.now result }
{
    let height = height_above(applied, parts);
    match thrown_by(alloc, parts, own) {
        Ok(thrown) => match ruled {
            Ok(ty) => Ok(Concluded { ty, thrown, height }),
            Err(fault) => Err(fault),
        },
        Err(Fault::NoMemory) => Err(Fault::NoMemory),
        Err(Fault::Refused(refusal)) => match ruled {
            Ok(_) => Err(Fault::Refused(thrown_rule(refusal))),
            Err(fault) => Err(fault_with(fault, refusal)),
        },
    }
}
