//! Nodes of typed trees.
ghost use Rattle.std.specs.Prelude.{◌≡◌, ◌<◌, length, map, true, IfOk};
ghost use Rattle.cl_code.specs.Expression.{expression};
ghost use Rattle.cl_code.specs.Nodes.{has_own_name, has_parts, versions_of};
ghost use Rattle.cl_code.specs.Typed.{TypedAs, expression_of, typeds};
ghost use Rattle.cl_types.specs.declared.fault.Fault.TheVariants.{Refused};
ghost use Rattle.cl_typing.specs.Verdicts.{facts_of, facts_concluded, texts_of};
ghost use Rattle.cl_judging.specs.Walking.{Finishes, codes_of, fault_at};

use cl_code::{Code, Op, PartsNative};
use cl_sexpr::{Break, Rule, Span};
use cl_types::{Fault, NoMemory};
use cl_typing::{Checked, Concluded};
use cl_values::Native;
use std::alloc::Global;

/// A native all of whose arguments are evaluated.
#[derive(Clone, Copy)]
pub(crate) enum Evaluated {
    Values(Native),
    Parts(PartsNative),
}

pub(crate) fn broken(rule: Rule, span: Span) -> Fault<Break>
    ensures { result ≡ Refused (record { rule = rule; span = span }) }
{
    Fault::Refused(Break { rule, span })
}

/// The trees of what was checked.
fn trees(alloc: Global, parts: Vec<Checked>) -> Result<Vec<Code>, NoMemory>
    ensures { IfOk result (λ codes. codes.items ≡ codes_of parts.items) }
{
    let mut codes = Vec::with_capacity(alloc, parts.len())?;
    for part in parts {
        codes.push_reserved(part.into_code());
    }
    Ok(codes)
}

/// A node of what is concluded and its trees. This takes no memory.
pub(crate) fn node(op: Op, codes: Vec<Code>, concluded: Concluded, span: Span) -> Checked
    requires few { length codes.items < 1048576 }
    requires fit { has_parts op (length codes.items) ≡ true }
    requires named { has_own_name op ≡ true }
    ensures facts { facts_of result ≡ facts_concluded concluded }
    ensures code { result.code ≡ TypedAs (expression op (map expression_of codes.items) span)
        concluded.ty (versions_of op) (typeds codes.items) }
{
    Checked {
        code: Code::make(op, codes, concluded.ty, span),
        thrown: concluded.thrown,
        height: concluded.height,
    }
}

fn at(fault: Fault<Rule>, span: Span) -> Fault<Break>
    ensures { result ≡ fault_at fault span }
{
    match fault {
        Fault::Refused(rule) => broken(rule, span),
        Fault::NoMemory => Fault::NoMemory,
    }
}

/// The node with these parts, where its verdict breaks no rule.
pub(crate) fn finish(
    alloc: Global,
    op: Op,
    parts: Vec<Checked>,
    concluded: Result<Concluded, Fault<Rule>>,
    span: Span,
) -> Result<Checked, Fault<Break>>
    requires few { length parts.items < 1048576 }
    requires fit { has_parts op (length parts.items) ≡ true }
    requires named { has_own_name op ≡ true }
    ensures found { Finishes op parts.items concluded span result }
    ensures text { IfOk result
        (λ c. expression_of c.code ≡ expression op (texts_of parts.items) span) }
{
    match concluded {
        Ok(concluded) => Ok(node(op, trees(alloc, parts)?, concluded, span)),
        Err(fault) => Err(at(fault, span)),
    }
}
