//! Forms one by one.
ghost use Rattle.std.specs.Prelude.{◌≡◌, ◌<◌, ◌≤◌, ◌^◌, false, map, Some, None, IfOk};
ghost use Rattle.cl_sexpr.specs.Tree.{tree_depth, tree_size};
ghost use Rattle.cl_sexpr.specs.Fits.{Fits};
ghost use Rattle.cl_forms.specs.Forms.{ConstantForm, VariableForm, MapForm, FungibleForm, NonFungibleForm, FunctionForm, ExpressionForm};
ghost use Rattle.cl_forms.specs.Names.{stands_twice};
ghost use Rattle.cl_rules.specs.Judging.{nesting};
ghost use Rattle.cl_judging.specs.Seen.{shown, top_level_in};
ghost use Rattle.cl_code.specs.declared.definition.Definition.TheVariants.{Function as FunctionOf};
ghost use Rattle.cl_check.specs.JudgingForms.{FindsForm, MayFollow};

use crate::adding::{
    add_constant, add_function, add_fungible, add_map, add_nonfungible, add_variable,
};
use crate::kinds::{Body, declared, function_body, plain};
use cl_code::{
    Code, Constant, Definition, Function, Fungible, MapOf, NonFungible, TopLevel, Variable,
};
use cl_forms::{Form, FormKind};
use cl_judging::{Context, Signature, params_copied};
use cl_sexpr::{Break, Sexpr, Span};
use cl_types::{Access, Fault, Name, NoMemory, SizedTy, TyKind};
use cl_typing::{Checked, of};
use std::alloc::Global;

fn constant(
    alloc: Global,
    ctx: &mut Context,
    name: &Name,
    e: &Sexpr,
    span: Span,
) -> Result<Definition, Fault<Break>>
    requires small { tree_size e.now ≤ 2 ^ 21 }
    requires fits { Fits e.now }
    requires nested { tree_depth e.now < nesting }
    requires new { top_level_in ctx.old name.now ≡ false }
    ensures { FindsForm ctx.old (record { name = Some name.now; kind = ConstantForm e.now; span = span }) result ctx.new }
{
    let found = match plain(alloc, ctx, e, span) {
        Ok(found) => found,
        Err(fault) => return Err(fault),
    };
    let ty = found.code.result().copy(alloc)?;
    add_constant(ctx, *name, ty)?;
    Ok(Definition::Constant(Constant {
        name: *name,
        value: found.into_code(),
        span,
    }))
}

fn variable(
    alloc: Global,
    ctx: &mut Context,
    name: &Name,
    ty: &SizedTy,
    e: &Sexpr,
    span: Span,
) -> Result<Definition, Fault<Break>>
    requires small { tree_size e.now ≤ 2 ^ 21 }
    requires fits { Fits e.now }
    requires nested { tree_depth e.now < nesting }
    requires new { top_level_in ctx.old name.now ≡ false }
    ensures { FindsForm ctx.old (record { name = Some name.now; kind = VariableForm ty.now e.now; span = span }) result ctx.new }
{
    let found = match declared(alloc, ctx, ty, e, span) {
        Ok(found) => found,
        Err(fault) => return Err(fault),
    };
    let kept = ty.copy(alloc)?;
    add_variable(ctx, *name, kept)?;
    let ty = ty.copy(alloc)?;
    Ok(Definition::Variable(Variable {
        name: *name,
        ty,
        value: found.into_code(),
        span,
    }))
}

fn map_of(
    alloc: Global,
    ctx: &mut Context,
    name: &Name,
    key: &SizedTy,
    value: &SizedTy,
    span: Span,
) -> Result<Definition, Fault<Break>>
    requires { top_level_in ctx.old name.now ≡ false }
    ensures { FindsForm ctx.old (record { name = Some name.now; kind = MapForm key.now value.now; span = span }) result ctx.new }
{
    let kept_key = key.copy(alloc)?;
    let kept_value = value.copy(alloc)?;
    add_map(ctx, *name, kept_key, kept_value)?;
    let key = key.copy(alloc)?;
    let value = value.copy(alloc)?;
    Ok(Definition::MapOf(MapOf {
        name: *name,
        key,
        value,
        span,
    }))
}

fn fungible(ctx: &mut Context, name: &Name, span: Span) -> Result<Definition, Fault<Break>>
    requires { top_level_in ctx.old name.now ≡ false }
    ensures { FindsForm ctx.old (record { name = Some name.now; kind = FungibleForm None; span = span }) result ctx.new }
{
    add_fungible(ctx, *name)?;
    Ok(Definition::Fungible(Fungible {
        name: *name,
        supply: None,
        span,
    }))
}

fn supplied(
    alloc: Global,
    ctx: &mut Context,
    name: &Name,
    e: &Sexpr,
    span: Span,
) -> Result<Definition, Fault<Break>>
    requires small { tree_size e.now ≤ 2 ^ 21 }
    requires fits { Fits e.now }
    requires nested { tree_depth e.now < nesting }
    requires new { top_level_in ctx.old name.now ≡ false }
    ensures { FindsForm ctx.old (record { name = Some name.now; kind = FungibleForm (Some e.now); span = span }) result ctx.new }
{
    let uint = of(alloc, TyKind::Uint)?;
    let found = match declared(alloc, ctx, &uint, e, span) {
        Ok(found) => found,
        Err(fault) => return Err(fault),
    };
    drop(uint);
    add_fungible(ctx, *name)?;
    Ok(Definition::Fungible(Fungible {
        name: *name,
        supply: Some(found.into_code()),
        span,
    }))
}

fn nonfungible(
    alloc: Global,
    ctx: &mut Context,
    name: &Name,
    id: &SizedTy,
    span: Span,
) -> Result<Definition, Fault<Break>>
    requires { top_level_in ctx.old name.now ≡ false }
    ensures { FindsForm ctx.old (record { name = Some name.now; kind = NonFungibleForm id.now; span = span }) result ctx.new }
{
    let kept = id.copy(alloc)?;
    add_nonfungible(ctx, *name, kept)?;
    let id = id.copy(alloc)?;
    Ok(Definition::NonFungible(NonFungible {
        name: *name,
        id,
        span,
    }))
}

fn signature(
    alloc: Global,
    access: Access,
    params: &[(Name, SizedTy)],
    body: &Body,
) -> Result<Signature, NoMemory>
    ensures { IfOk result (λ f. shown f ≡ record { access = access; params = params.now; returns = body.now.returns; height = body.now.height }) }
{
    let params = params_copied(alloc, params)?;
    let returns = body.returns.copy(alloc)?;
    Ok(Signature {
        access,
        params,
        returns,
        height: body.height,
    })
}

fn function(
    alloc: Global,
    ctx: &mut Context,
    name: &Name,
    access: Access,
    params: &[(Name, SizedTy)],
    e: &Sexpr,
    span: Span,
) -> Result<Definition, Fault<Break>>
    requires small { tree_size e.now ≤ 2 ^ 21 }
    requires fits { Fits e.now }
    requires nested { tree_depth e.now < nesting }
    requires new { top_level_in ctx.old name.now ≡ false }
    requires once { stands_twice (map (λ p. p.0) params.now) ≡ false }
    ensures { FindsForm ctx.old (record { name = Some name.now; kind = FunctionForm access params.now e.now; span = span }) result ctx.new }
{
    let body = match function_body(alloc, ctx, access, params, e, span) {
        Ok(body) => body,
        Err(fault) => return Err(fault),
    };
    let kept = signature(alloc, access, params, &body)?;
    add_function(ctx, *name, kept)?;
    let params = params_copied(alloc, params)?;
    Ok(defined(*name, access, params, body, span))
}

fn defined(
    name: Name,
    access: Access,
    params: Vec<(Name, SizedTy)>,
    body: Body,
    span: Span,
) -> Definition
    ensures { result ≡ FunctionOf (record { name = name; access = access; params = params; returns = body.returns; height = body.height; body = body.checked.code; span = span }) }
{
    let Body {
        checked,
        returns,
        height,
    } = body;
    Definition::Function(Function {
        name,
        access,
        params,
        returns,
        height,
        body: checked.into_code(),
        span,
    })
}

fn top_level(
    alloc: Global,
    ctx: &mut Context,
    e: &Sexpr,
    span: Span,
) -> Result<Definition, Fault<Break>>
    requires small { tree_size e.now ≤ 2 ^ 21 }
    requires fits { Fits e.now }
    requires nested { tree_depth e.now < nesting }
    ensures { FindsForm ctx.old (record { name = None; kind = ExpressionForm e.now; span = span }) result ctx.new }
{
    let found = match plain(alloc, ctx, e, span) {
        Ok(found) => found,
        Err(fault) => return Err(fault),
    };
    Ok(Definition::TopLevel(TopLevel {
        value: found.into_code(),
        span,
    }))
}

/// A form after those before it: its definition with typed trees, or its first break.
pub(crate) fn check_form(
    alloc: Global,
    ctx: &mut Context,
    form: &Form,
) -> Result<Definition, Fault<Break>>
    requires { MayFollow ctx.old form.now }
    ensures { FindsForm ctx.old form.now result ctx.new }
{
    let span = form.span;
    let Some(name) = &form.name else {
        return match &form.kind {
            FormKind::Expression(e) => top_level(alloc, ctx, e, span),
            _ => unreachable!(),
        };
    };
    match &form.kind {
        FormKind::Constant(e) => constant(alloc, ctx, name, e, span),
        FormKind::Variable(ty, e) => variable(alloc, ctx, name, ty, e, span),
        FormKind::MapOf(key, value) => map_of(alloc, ctx, name, key, value, span),
        FormKind::Fungible(None) => fungible(ctx, name, span),
        FormKind::Fungible(Some(e)) => supplied(alloc, ctx, name, e, span),
        FormKind::NonFungible(id) => nonfungible(alloc, ctx, name, id, span),
        FormKind::Function {
            access,
            params,
            body,
        } => function(alloc, ctx, name, *access, params, body, span),
        FormKind::Expression(_) => unreachable!(),
    }
}
