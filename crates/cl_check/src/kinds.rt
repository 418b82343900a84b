//! What is found of the expressions of forms.
ghost use Rattle.std.specs.Prelude.{◌≡◌, ◌<◌, ◌≤◌, ◌^◌, [], false, map, nat_lt, Some, IfOk};
ghost use Rattle.cl_types.specs.Types.{UintType};
ghost use Rattle.cl_types.specs.declared.fault.Fault.TheVariants.{Refused};
ghost use Rattle.cl_sexpr.specs.Tree.{tree_depth, tree_size};
ghost use Rattle.cl_forms.specs.Forms.{ConstantForm, VariableForm, FungibleForm, FunctionForm, ExpressionForm};
ghost use Rattle.cl_forms.specs.Names.{stands_twice};
ghost use Rattle.cl_rules.specs.FormRules.{most_height, may_answer};
ghost use Rattle.cl_rules.specs.Judging.{nesting};
ghost use Rattle.cl_code.specs.Typed.{expression_of};
ghost use Rattle.cl_sexpr.specs.Fits.{Fits};
ghost use Rattle.cl_check.specs.JudgingForms.{Checks, FindsKind, FindsBody, Returns, return_fault, return_rule};

use cl_judging::{Context, judge};
use cl_keyed::HashKey;
use cl_sexpr::{Break, Rule, Sexpr, Span};
use cl_types::{Access, Fault, Name, NoMemory, SizedTy, TyRefusal, admits, lub};
use cl_typing::{Checked, is_response};
use indexmap::IndexMap;
use std::alloc::Global;

/// The body of a function: what the function returns, and the height of its application.
#[derive(Drop)]
pub(crate) struct Body {
    pub(crate) checked: Checked,
    pub(crate) returns: SizedTy,
    pub(crate) height: u32,
}

fn broken(rule: Rule, span: Span) -> Fault<Break>
    ensures { result ≡ Refused (record { rule = rule; span = span }) }
{
    Fault::Refused(Break { rule, span })
}

fn is_too_high(height: u32) -> bool
    ensures { result ≡ nat_lt most_height height }
{
    256 < height
}

/// An expression in which no names are bound.
fn unbound(alloc: Global, ctx: &Context, e: &Sexpr) -> Result<Checked, Fault<Break>>
    requires small { tree_size e.now ≤ 2 ^ 21 }
    requires fits { Fits e.now }
    ensures found { Checks ctx.now [] e.now result }
    ensures text { IfOk result (λ c. expression_of c.code ≡ e.now) }
{
    let mut scope = IndexMap::with_hasher(alloc, ctx.hash_key());
    match judge(alloc, ctx, &mut scope, e) {
        Ok(checked) => Ok(checked),
        Err(fault) => Err(fault),
    }
}

/// A constant or a top-level expression.
pub(crate) fn plain(
    alloc: Global,
    ctx: &Context,
    e: &Sexpr,
    span: Span,
) -> Result<Checked, Fault<Break>>
    requires small { tree_size e.now ≤ 2 ^ 21 }
    requires fits { Fits e.now }
    requires nested { tree_depth e.now < nesting }
    ensures constant { FindsKind ctx.now (ConstantForm e.now) span result }
    ensures expression { FindsKind ctx.now (ExpressionForm e.now) span result }
    ensures text { IfOk result (λ c. expression_of c.code ≡ e.now) }
{
    let checked = match unbound(alloc, ctx, e) {
        Ok(checked) => checked,
        Err(fault) => return Err(fault),
    };
    if is_too_high(checked.height) {
        return Err(broken(Rule::TooDeepCalls, span));
    }
    Ok(checked)
}

/// A variable of this type with the expression of its first value, or a token with its greatest supply.
pub(crate) fn declared(
    alloc: Global,
    ctx: &Context,
    ty: &SizedTy,
    e: &Sexpr,
    span: Span,
) -> Result<Checked, Fault<Break>>
    requires small { tree_size e.now ≤ 2 ^ 21 }
    requires fits { Fits e.now }
    requires nested { tree_depth e.now < nesting }
    ensures variable { FindsKind ctx.now (VariableForm ty.now e.now) span result }
    ensures supply { ty.now ≡ UintType → FindsKind ctx.now (FungibleForm (Some e.now)) span result }
    ensures text { IfOk result (λ c. expression_of c.code ≡ e.now) }
{
    let checked = match unbound(alloc, ctx, e) {
        Ok(checked) => checked,
        Err(fault) => return Err(fault),
    };
    if !admits(ty, checked.code.result()) {
        return Err(broken(Rule::ArgumentKind, span));
    }
    if is_too_high(checked.height) {
        return Err(broken(Rule::TooDeepCalls, span));
    }
    Ok(checked)
}

/// The parameters are bound.
fn bound(
    alloc: Global,
    hash_key: HashKey,
    params: &[(Name, SizedTy)],
) -> Result<IndexMap<Name, SizedTy, HashKey>, NoMemory>
    requires { stands_twice (map (λ p. p.0) params.now) ≡ false }
    ensures { IfOk result (λ scope. scope.entries ≡ params.now) }
{
    let mut scope = IndexMap::with_hasher(alloc, hash_key);
    for param in params {
        let ty = param.1.copy(alloc)?;
        scope.insert(param.0, ty)?;
    }
    Ok(scope)
}

/// The least supertype of what an expression gives and what it throws.
fn returned(alloc: Global, checked: &Checked) -> Result<SizedTy, Fault<TyRefusal>>
    ensures { Returns checked.now result }
{
    match &checked.thrown {
        None => {
            let ty = checked.code.result().copy(alloc)?;
            Ok(ty)
        }
        Some(thrown) => lub(alloc, checked.code.result(), thrown),
    }
}

fn may_answer(access: Access, ty: &SizedTy) -> bool
    ensures { result ≡ may_answer access ty.now }
{
    match access {
        Access::Public => is_response(ty),
        _ => true,
    }
}

fn refused_return(refusal: TyRefusal) -> Rule
    ensures { result ≡ return_rule refusal }
{
    match refusal {
        TyRefusal::Differ => Rule::ThrownDiffer,
        _ => Rule::TooLarge,
    }
}

fn return_fault(fault: Fault<TyRefusal>, span: Span) -> Fault<Break>
    ensures { result ≡ return_fault fault span }
{
    match fault {
        Fault::Refused(refusal) => broken(refused_return(refusal), span),
        Fault::NoMemory => Fault::NoMemory,
    }
}

/// A body with its parameters bound.
fn with_params(
    alloc: Global,
    ctx: &Context,
    params: &[(Name, SizedTy)],
    e: &Sexpr,
) -> Result<Checked, Fault<Break>>
    requires small { tree_size e.now ≤ 2 ^ 21 }
    requires fits { Fits e.now }
    requires once { stands_twice (map (λ p. p.0) params.now) ≡ false }
    ensures found { Checks ctx.now params.now e.now result }
    ensures text { IfOk result (λ c. expression_of c.code ≡ e.now) }
{
    let mut scope = match bound(alloc, ctx.hash_key(), params) {
        Ok(scope) => scope,
        Err(_) => return Err(Fault::NoMemory),
    };
    match judge(alloc, ctx, &mut scope, e) {
        Ok(checked) => Ok(checked),
        Err(fault) => Err(fault),
    }
}

/// The body of a function with its parameters bound.
pub(crate) fn function_body(
    alloc: Global,
    ctx: &Context,
    access: Access,
    params: &[(Name, SizedTy)],
    e: &Sexpr,
    span: Span,
) -> Result<Body, Fault<Break>>
    requires small { tree_size e.now ≤ 2 ^ 21 }
    requires fits { Fits e.now }
    requires nested { tree_depth e.now < nesting }
    requires once { stands_twice (map (λ p. p.0) params.now) ≡ false }
    ensures found { FindsBody ctx.now (FunctionForm access params.now e.now) span result }
    ensures text { IfOk result (λ b. expression_of b.checked.code ≡ e.now) }
{
    let checked = match with_params(alloc, ctx, params, e) {
        Ok(checked) => checked,
        Err(fault) => return Err(fault),
    };
    let returns = match returned(alloc, &checked) {
        Ok(returns) => returns,
        Err(fault) => return Err(return_fault(fault, span)),
    };
    if !may_answer(access, &returns) {
        return Err(broken(Rule::NotResponse, span));
    }
    if 255 < checked.height {
        return Err(broken(Rule::TooDeepCalls, span));
    }
    let height = checked.height + 1;
    Ok(Body {
        checked,
        returns,
        height,
    })
}
