//! Literals and names.
ghost use Rattle.std.specs.Prelude.{◌≡◌, [], true, false, IfOk};
ghost use Rattle.cl_sexpr.specs.Tree.{LeafAt, Named};
ghost use Rattle.cl_code.specs.Expression.{expression};
ghost use Rattle.cl_code.specs.Nodes.{goes_op, has_own_name, has_parts};
ghost use Rattle.cl_forms.specs.declared.version.Version.{Version};
ghost use Rattle.cl_code.specs.Typed.{expression_of};
ghost use Rattle.cl_forms.specs.Names.{is_one_of};
ghost use Rattle.cl_forms.specs.Keywords.{keyword_name, keywords};
ghost use Rattle.cl_rules.specs.Context.{keyword_type};
ghost use Rattle.cl_judging.specs.Walking.{Checks, FineAs, ValueAs};

use crate::context::{Context, type_under};
use crate::names::{is_no_value, keyword_of, keyword_type};
use crate::node::{broken, finish, node};
use cl_code::Op;
use cl_forms::Keyword;
use cl_keyed::HashKey;
use cl_sexpr::{Break, Rule, Span};
use cl_types::{Fault, Name, SizedTy};
use cl_typing::{Checked, Concluded, conclude};
use indexmap::IndexMap;
use std::alloc::Global;

/// A node without parts.
pub(crate) fn value(
    alloc: Global,
    op: Op,
    ruled: Result<SizedTy, Fault<Rule>>,
    span: Span,
) -> Result<Checked, Fault<Break>>
    requires fit { has_parts op 0 ≡ true }
    requires named { has_own_name op ≡ true }
    requires goes { (version : Version) → goes_op version op ≡ true }
    ensures found { ValueAs ruled span result }
    ensures text { IfOk result (λ c. expression_of c.code ≡ expression op [] span) }
{
    let parts = Vec::new(alloc);
    let concluded = conclude(alloc, ruled, &None, 0, &parts);
    finish(alloc, op, parts, concluded, span)
}

/// A node without parts that has this type.
pub(crate) fn typed(alloc: Global, op: Op, ty: SizedTy, span: Span) -> Result<Checked, Fault<Break>>
    requires fit { has_parts op 0 ≡ true }
    requires named { has_own_name op ≡ true }
    requires goes { (version : Version) → goes_op version op ≡ true }
    ensures found { FineAs ty span result }
    ensures text { IfOk result (λ c. expression_of c.code ≡ expression op [] span) }
{
    let codes = Vec::new(alloc);
    let concluded = Concluded {
        ty,
        thrown: None,
        height: 1,
    };
    Ok(node(op, codes, concluded, span))
}

/// A bound name.
#[tactic(auto, unfolding(cl_code::specs::Nodes::has_own_name, cl_code::specs::Nodes::goes_op))]
fn bound(alloc: Global, name: &Name, ty: SizedTy, span: Span) -> Result<Checked, Fault<Break>>
    requires { is_one_of keywords name.now ≡ false }
    ensures found { FineAs ty span result }
    ensures text { IfOk result (λ c. expression_of c.code ≡ LeafAt (Named name.now) span) }
{
    typed(alloc, Op::Bound(*name), ty, span)
}

/// A constant.
#[tactic(auto, unfolding(cl_code::specs::Nodes::has_own_name, cl_code::specs::Nodes::goes_op))]
fn constant(alloc: Global, name: &Name, ty: SizedTy, span: Span) -> Result<Checked, Fault<Break>>
    requires { is_one_of keywords name.now ≡ false }
    ensures found { FineAs ty span result }
    ensures text { IfOk result (λ c. expression_of c.code ≡ LeafAt (Named name.now) span) }
{
    typed(alloc, Op::Constant(*name), ty, span)
}

/// A keyword.
#[tactic(auto, unfolding(cl_code::specs::Nodes::has_own_name, cl_code::specs::Nodes::goes_op))]
fn keyword(alloc: Global, keyword: Keyword, span: Span) -> Result<Checked, Fault<Break>>
    ensures found { FineAs (keyword_type keyword) span result }
    ensures text { IfOk result (λ c. expression_of c.code ≡ LeafAt (Named (keyword_name keyword)) span) }
{
    let ty = keyword_type(alloc, keyword)?;
    typed(alloc, Op::Keyword(keyword), ty, span)
}

/// A name.
pub(crate) fn check_name(
    alloc: Global,
    ctx: &Context,
    scope: &IndexMap<Name, SizedTy, HashKey>,
    name: &Name,
    span: Span,
) -> Result<Checked, Fault<Break>>
    ensures found { Checks ctx.now scope.now.entries (LeafAt (Named name.now) span) result }
    ensures text { IfOk result (λ c. expression_of c.code ≡ LeafAt (Named name.now) span) }
{
    if let Some(found) = keyword_of(name) {
        return keyword(alloc, found, span);
    }
    if let Some(ty) = type_under(scope, name) {
        let ty = ty.copy(alloc)?;
        return bound(alloc, name, ty, span);
    }
    if let Some(ty) = type_under(&ctx.constants, name) {
        let ty = ty.copy(alloc)?;
        return constant(alloc, name, ty, span);
    }
    if is_no_value(ctx, name) {
        return Err(broken(Rule::NotAValue, span));
    }
    Err(broken(Rule::UnknownName, span))
}
