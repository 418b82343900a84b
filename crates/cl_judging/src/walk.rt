//! The walk over expressions.
ghost use Rattle.std.specs.Prelude.{◌≡◌, ◌∷◌, [], ◌+◌, ◌<◌, ◌≤◌, ◌^◌, ◌++◌, None, Some, true, false, codes, map, nat_eq, is_some, length, take, filter_map, IfOk, OnOk};
ghost use Rattle.cl_sexpr.specs.Fits.{AllFit, Fits, HasPair, PairsFit};
ghost use Rattle.cl_sexpr.specs.Tree.{ListAt, TupleAt, forest, forest_depth, forest_size, pairs as pairs_as, pairs_size, tree_size};
ghost use Rattle.cl_forms.specs.declared.head.Head.TheVariants as heads;
ghost use Rattle.cl_forms.specs.Heads.{native, row_of, takes};
ghost use Rattle.cl_forms.specs.HeadNames.{has_head, name_of};
ghost use Rattle.cl_forms.specs.Shapes.{bindings_of};
ghost use Rattle.cl_rules.specs.Context.{bind as bind_name, named_in};
ghost use Rattle.cl_rules.specs.ControlShapes.{bound_name};
ghost use Rattle.cl_rules.specs.Shapes.{parts as plan_parts};
ghost use Rattle.cl_code.specs.Expression.{headed, optional_branches, response_branches};
ghost use Rattle.cl_code.specs.OpNames.{iteration_head, name_head};
ghost use Rattle.cl_code.specs.Typed.{expression_of};
ghost use Rattle.cl_typing.specs.Verdicts.{texts_of};
ghost use Rattle.cl_judging.specs.Branching.{AddsTwo, ChecksOptional, ChecksResponse};
ghost use Rattle.cl_judging.specs.Seen.{shadowed_in, taken_in};
ghost use Rattle.cl_judging.specs.Calls.{ChecksCall};
ghost use Rattle.cl_judging.specs.LetWalk.{ChecksMore, ChecksBindings, ChecksLet, ChecksLetWith, exprs_of};
ghost use Rattle.cl_judging.specs.Walking.{Checks, ChecksAll, ChecksHead, ChecksNative, head_at};

use crate::calls::{has_count, on_call};
use crate::context::{Context, Signature, function_under};
use crate::given::{given_by, missing};
use crate::kinds::{Kind, has_enough, kind_of};
use crate::leaves::check_name;
use crate::literals::{ascii, buff, int, local, standing, uint, utf8};
use crate::matches::{five, four, on_optional, on_response, part_of, parts_of, refusal};
use crate::max_len::{on_max_len, single, uint_at};
use crate::named::on_name;
use crate::names::is_taken;
use crate::node::{Evaluated, broken, finish};
use crate::parts::{add_binding, headed, judge, op_of, push, split, split_two};
use crate::scope::{
    Scope, are_bindings, bind, binding_at, bindings_in, count, is_pair_taken, is_shadowed,
    items_at, name_in, names_in, odd_rule, two, unbind,
};
use crate::targets::{another_at, callable, callee_of, has_as_many, on_callee, target_in};
use crate::tuples::{bound_exprs, bound_keys, exprs_in, keys_in, on_tuple, stand_twice};
use crate::uses::{on_iteration, takes_values, use_at};
use crate::verdicts::on_bodies;
use cl_code::{Iteration, NameNative, Op, Word};
use cl_forms::{Head, native};
use cl_sexpr::{Break, Node, Rule, Sexpr, Span};
use cl_types::{Fault, Name, SizedTy};
use cl_typing::Checked;
use std::alloc::Global;

/// Several expressions with the same names.
#[cycle(check)]
fn check_parts(
    alloc: Global,
    ctx: &Context,
    scope: &mut Scope,
    items: &[Sexpr],
) -> Result<Vec<Checked>, Fault<Break>>
    requires small { forest_size (forest items.now) < 2 ^ 21 }
    requires fits { AllFit (forest items.now) }
    ensures found { ChecksAll ctx.now (plan_parts scope.old.entries items.now) (forest_depth (forest items.now) + 1) result }
    ensures text { IfOk result (λ v. texts_of v.items ≡ items.now) }
    ensures kept { IfOk result (λ _. scope.new.entries ≡ scope.old.entries) }
{
    let mut founds = Vec::new(alloc);
    for item in items {
        match check_expr(alloc, ctx, scope, item) {
            Ok(found) => push(&mut founds, found)?,
            Err(fault) => return Err(fault),
        }
    }
    Ok(founds)
}

/// A native all of whose arguments are evaluated.
#[cycle(check)]
fn check_native(
    alloc: Global,
    ctx: &Context,
    scope: &mut Scope,
    native: Evaluated,
    head: Span,
    args: &[Sexpr],
    span: Span,
) -> Result<Checked, Fault<Break>>
    requires small { forest_size (forest args.now) < 2 ^ 21 }
    requires fits { AllFit (forest args.now) }
    requires enough { takes (row_of (head_at native)).arity (length args.now) ≡ true }
    requires had { has_head ctx.now.version (head_at native) ≡ true }
    ensures found { ChecksNative ctx.now native scope.old.entries args.now span result }
    ensures text { IfOk result
        (λ c. expression_of c.code ≡ headed (name_of (head_at native)) head args.now span) }
    ensures kept { IfOk result (λ _. scope.new.entries ≡ scope.old.entries) }
{
    let parts = match check_parts(alloc, ctx, scope, args) {
        Ok(parts) => parts,
        Err(fault) => return Err(fault),
    };
    let concluded = judge(alloc, native, &parts);
    finish(alloc, op_of(native, head), parts, concluded, span)
}

/// Further expressions with the same names, behind those that were found.
#[cycle(check)]
fn check_more(
    alloc: Global,
    ctx: &Context,
    scope: &mut Scope,
    founds: &mut Vec<Checked>,
    items: &[Sexpr],
) -> Result<(), Fault<Break>>
    requires small { forest_size (forest items.now) < 2 ^ 21 }
    requires fits { AllFit (forest items.now) }
    ensures found { ChecksMore ctx.now scope.old.entries founds.old.items founds.new.items items.now result }
    ensures text { OnOk result (texts_of founds.new.items ≡ texts_of founds.old.items ++ items.now) }
    ensures kept { OnOk result (scope.new.entries ≡ scope.old.entries) }
{
    for item in items {
        match check_expr(alloc, ctx, scope, item) {
            Ok(found) => push(founds, found)?,
            Err(fault) => return Err(fault),
        }
    }
    Ok(())
}

/// The bindings of a let, whose names stay bound.
#[cycle(check)]
fn check_bindings(
    alloc: Global,
    ctx: &Context,
    scope: &mut Scope,
    items: &[Sexpr],
) -> Result<Vec<Checked>, Fault<Break>>
    requires small { forest_size (forest items.now) < 2 ^ 21 }
    requires fits { AllFit (forest items.now) }
    requires sound { is_some (bindings_of items.now) ≡ true }
    requires free { shadowed_in ctx.now scope.old.entries (filter_map bound_name items.now) ≡ false }
    ensures found { ChecksBindings ctx.now scope.old.entries scope.new.entries items.now result }
    ensures text { IfOk result (λ v. texts_of v.items ≡ exprs_of items.now) }
    ensures kept { IfOk result (λ _. take (length scope.old.entries) scope.new.entries ≡ scope.old.entries) }
{
    let mut founds = Vec::new(alloc);
    for item in items {
        let Some((binding, e)) = binding_at(item) else {
            unreachable!()
        };
        match check_expr(alloc, ctx, scope, e) {
            Ok(found) => add_binding(alloc, scope, &mut founds, binding.word.name, found)?,
            Err(fault) => return Err(fault),
        }
    }
    Ok(founds)
}

/// A let with one expression or more behind these bindings, which stand in brackets at `at`.
#[cycle(check)]
fn check_let_with(
    alloc: Global,
    ctx: &Context,
    scope: &mut Scope,
    head: Span,
    at: Span,
    items: &[Sexpr],
    body: &[Sexpr],
    span: Span,
) -> Result<Checked, Fault<Break>>
    requires small { forest_size (forest items.now) + forest_size (forest body.now) < 2 ^ 21 }
    requires fits { AllFit (forest items.now) }
    requires others { AllFit (forest body.now) }
    requires body { nat_eq (length body.now) 0 ≡ false }
    ensures found { ChecksLetWith ctx.now scope.old.entries items.now body.now span result }
    ensures text { IfOk result (λ c. expression_of c.code ≡ headed (codes "let") head (ListAt (forest items.now) at ∷ body.now) span) }
    ensures kept { IfOk result (λ _. scope.new.entries ≡ scope.old.entries) }
{
    if is_shadowed(alloc, ctx, scope, items)? {
        return Err(broken(Rule::ShadowedName, span));
    }
    if !are_bindings(items) {
        return Err(broken(Rule::BadBinding, span));
    }
    let bindings = bindings_in(alloc, items)?;
    let bound = count(scope);
    let mut founds = match check_bindings(alloc, ctx, scope, items) {
        Ok(founds) => founds,
        Err(fault) => return Err(fault),
    };
    match check_more(alloc, ctx, scope, &mut founds, body) {
        Ok(()) => {}
        Err(fault) => return Err(fault),
    }
    unbind(scope, bound);
    let concluded = on_bodies(alloc, items.len(), &founds);
    let op = Op::Let { head, at, bindings };
    finish(alloc, op, founds, concluded, span)
}

/// A let.
#[cycle(check)]
fn check_let(
    alloc: Global,
    ctx: &Context,
    scope: &mut Scope,
    head: Span,
    args: &[Sexpr],
    span: Span,
) -> Result<Checked, Fault<Break>>
    requires small { forest_size (forest args.now) < 2 ^ 21 }
    requires fits { AllFit (forest args.now) }
    requires enough { takes (row_of heads.Let).arity (length args.now) ≡ true }
    ensures found { ChecksLet ctx.now scope.old.entries args.now span result }
    ensures text { IfOk result (λ c. expression_of c.code ≡ headed (codes "let") head args.now span) }
    ensures kept { IfOk result (λ _. scope.new.entries ≡ scope.old.entries) }
{
    let Some((first, body)) = split(args) else {
        unreachable!()
    };
    let Some((items, at)) = items_at(first) else {
        return Err(broken(Rule::BadBinding, span));
    };
    check_let_with(alloc, ctx, scope, head, at, items, body, span)
}

/// The expressions of pairs, with the same names.
#[cycle(check)]
fn check_each(
    alloc: Global,
    ctx: &Context,
    scope: &mut Scope,
    items: &[&Sexpr],
) -> Result<Vec<Checked>, Fault<Break>>
    requires small { forest_size (forest (map (λ e. e.now) items.now)) < 2 ^ 21 }
    requires fits { AllFit (forest (map (λ e. e.now) items.now)) }
    ensures found { ChecksAll ctx.now (plan_parts scope.old.entries (map (λ e. e.now) items.now)) (forest_depth (forest (map (λ e. e.now) items.now)) + 1) result }
    ensures text { IfOk result (λ v. texts_of v.items ≡ map (λ e. e.now) items.now) }
    ensures kept { IfOk result (λ _. scope.new.entries ≡ scope.old.entries) }
{
    let mut founds = Vec::new(alloc);
    for item in items {
        match check_expr(alloc, ctx, scope, item) {
            Ok(found) => push(&mut founds, found)?,
            Err(fault) => return Err(fault),
        }
    }
    Ok(founds)
}

/// A tuple in curly brackets.
#[cycle(check)]
fn check_tuple(
    alloc: Global,
    ctx: &Context,
    scope: &mut Scope,
    pairs: &[(Name, Sexpr)],
    span: Span,
) -> Result<Checked, Fault<Break>>
    requires small { pairs_size (pairs_as pairs.now) < 2 ^ 21 }
    requires some { HasPair (pairs_as pairs.now) }
    requires fits { PairsFit (pairs_as pairs.now) }
    ensures found { Checks ctx.now scope.old.entries (TupleAt (pairs_as pairs.now) span) result }
    ensures text { IfOk result (λ c. expression_of c.code ≡ TupleAt (pairs_as pairs.now) span) }
    ensures kept { IfOk result (λ _. scope.new.entries ≡ scope.old.entries) }
{
    let keys = keys_in(alloc, pairs)?;
    if stand_twice(alloc, ctx, &keys)? {
        return Err(broken(Rule::KeyTwice, span));
    }
    let exprs = exprs_in(alloc, pairs)?;
    let parts = match check_each(alloc, ctx, scope, &exprs) {
        Ok(parts) => parts,
        Err(fault) => return Err(fault),
    };
    let concluded = on_tuple(alloc, &keys, &parts);
    finish(alloc, Op::Tuple(keys), parts, concluded, span)
}

/// A tuple of pairs in round brackets.
#[cycle(check)]
fn check_pairs(
    alloc: Global,
    ctx: &Context,
    scope: &mut Scope,
    head: Span,
    args: &[Sexpr],
    span: Span,
) -> Result<Checked, Fault<Break>>
    requires small { forest_size (forest args.now) < 2 ^ 21 }
    requires fits { AllFit (forest args.now) }
    requires enough { takes (row_of heads.TupleOf).arity (length args.now) ≡ true }
    ensures found { ChecksHead ctx.now heads.TupleOf scope.old.entries args.now span result }
    ensures text { IfOk result (λ c. expression_of c.code ≡ headed (codes "tuple") head args.now span) }
    ensures kept { IfOk result (λ _. scope.new.entries ≡ scope.old.entries) }
{
    if !are_bindings(args) {
        return Err(broken(Rule::BadBinding, span));
    }
    let keys = bound_keys(alloc, args)?;
    if stand_twice(alloc, ctx, &keys)? {
        return Err(broken(Rule::KeyTwice, span));
    }
    let pairs = bindings_in(alloc, args)?;
    let exprs = bound_exprs(alloc, args)?;
    let parts = match check_each(alloc, ctx, scope, &exprs) {
        Ok(parts) => parts,
        Err(fault) => return Err(fault),
    };
    let concluded = on_tuple(alloc, &keys, &parts);
    finish(alloc, Op::TupleOf { head, pairs }, parts, concluded, span)
}

/// A sequence and a greatest length, which isn't evaluated.
#[cycle(check)]
fn check_max_len(
    alloc: Global,
    ctx: &Context,
    scope: &mut Scope,
    head: Span,
    args: &[Sexpr],
    span: Span,
) -> Result<Checked, Fault<Break>>
    requires small { forest_size (forest args.now) < 2 ^ 21 }
    requires fits { AllFit (forest args.now) }
    requires enough { takes (row_of heads.AsMaxLen).arity (length args.now) ≡ true }
    ensures found { ChecksHead ctx.now heads.AsMaxLen scope.old.entries args.now span result }
    ensures text { IfOk result (λ c. expression_of c.code ≡ headed (codes "as-max-len?") head args.now span) }
    ensures kept { IfOk result (λ _. scope.new.entries ≡ scope.old.entries) }
{
    let Some((item, second)) = two(args) else {
        unreachable!()
    };
    let Some((most, at)) = uint_at(second) else {
        return Err(broken(Rule::LiteralExpected, span));
    };
    let found = match check_expr(alloc, ctx, scope, item) {
        Ok(found) => found,
        Err(fault) => return Err(fault),
    };
    let parts = single(alloc, found)?;
    let concluded = on_max_len(alloc, most, &parts);
    let op = Op::AsMaxLen { head, most, at };
    finish(alloc, op, parts, concluded, span)
}

/// A branch of a match, in which one more name is bound.
#[cycle(check)]
fn check_branch(
    alloc: Global,
    ctx: &Context,
    scope: &mut Scope,
    name: Name,
    ty: SizedTy,
    e: &Sexpr,
) -> Result<Checked, Fault<Break>>
    requires small { tree_size e.now ≤ 2 ^ 21 }
    requires fits { Fits e.now }
    requires free { named_in name scope.old.entries ≡ None }
    ensures found { Checks ctx.now (bind_name name ty scope.old.entries) e.now result }
    ensures text { IfOk result (λ c. expression_of c.code ≡ e.now) }
    ensures kept { IfOk result (λ _. scope.new.entries ≡ scope.old.entries) }
{
    let bound = count(scope);
    bind(scope, name, ty)?;
    let found = match check_expr(alloc, ctx, scope, e) {
        Ok(found) => found,
        Err(fault) => return Err(fault),
    };
    unbind(scope, bound);
    Ok(found)
}

/// Two more parts, the first with one more name.
#[cycle(check)]
fn check_cases(
    alloc: Global,
    ctx: &Context,
    scope: &mut Scope,
    founds: &mut Vec<Checked>,
    name: Name,
    ty: SizedTy,
    some: &Sexpr,
    none: &Sexpr,
) -> Result<(), Fault<Break>>
    requires small { tree_size some.now + tree_size none.now < 2 ^ 21 }
    requires first { Fits some.now }
    requires second { Fits none.now }
    requires free { named_in name scope.old.entries ≡ None }
    ensures found { AddsTwo ctx.now (bind_name name ty scope.old.entries) some.now scope.old.entries none.now founds.old.items founds.new.items result }
    ensures kept { OnOk result (scope.new.entries ≡ scope.old.entries) }
{
    match check_branch(alloc, ctx, scope, name, ty, some) {
        Ok(yes) => push(founds, yes)?,
        Err(fault) => return Err(fault),
    }
    match check_expr(alloc, ctx, scope, none) {
        Ok(no) => push(founds, no)?,
        Err(fault) => return Err(fault),
    }
    Ok(())
}

/// A match of an optional, whose part has a name that is free.
#[cycle(check)]
fn check_optional(
    alloc: Global,
    ctx: &Context,
    scope: &mut Scope,
    head: Span,
    part: Word,
    input: &Sexpr,
    some: &Sexpr,
    none: &Sexpr,
    span: Span,
) -> Result<Checked, Fault<Break>>
    requires small { tree_size input.now + tree_size some.now + tree_size none.now < 2 ^ 21 }
    requires first { Fits input.now }
    requires second { Fits some.now }
    requires third { Fits none.now }
    requires free { taken_in ctx.now scope.old.entries part.name ≡ false }
    ensures found { ChecksOptional ctx.now scope.old.entries input.now part some.now none.now span result }
    ensures text { IfOk result (λ c. expression_of c.code ≡ headed (codes "match") head (optional_branches part (input.now ∷ some.now ∷ none.now ∷ [])) span) }
    ensures kept { IfOk result (λ _. scope.new.entries ≡ scope.old.entries) }
{
    let found = match check_expr(alloc, ctx, scope, input) {
        Ok(found) => found,
        Err(fault) => return Err(fault),
    };
    let Some(ty) = part_of(alloc, &found)? else {
        return Err(refusal(check_expr(alloc, ctx, scope, none), span));
    };
    let mut parts = single(alloc, found)?;
    match check_cases(alloc, ctx, scope, &mut parts, part.name, ty, some, none) {
        Ok(()) => {}
        Err(fault) => return Err(fault),
    }
    let concluded = on_optional(alloc, &parts);
    let op = Op::MatchOptional { head, part };
    finish(alloc, op, parts, concluded, span)
}

/// Two more parts, each with one more name.
#[cycle(check)]
fn check_both(
    alloc: Global,
    ctx: &Context,
    scope: &mut Scope,
    founds: &mut Vec<Checked>,
    good: Name,
    ok: SizedTy,
    first: &Sexpr,
    bad: Name,
    err: SizedTy,
    second: &Sexpr,
) -> Result<(), Fault<Break>>
    requires small { tree_size first.now + tree_size second.now < 2 ^ 21 }
    requires one { Fits first.now }
    requires two { Fits second.now }
    requires good_free { named_in good scope.old.entries ≡ None }
    requires bad_free { named_in bad scope.old.entries ≡ None }
    ensures found { AddsTwo ctx.now (bind_name good ok scope.old.entries) first.now (bind_name bad err scope.old.entries) second.now founds.old.items founds.new.items result }
    ensures kept { OnOk result (scope.new.entries ≡ scope.old.entries) }
{
    match check_branch(alloc, ctx, scope, good, ok, first) {
        Ok(yes) => push(founds, yes)?,
        Err(fault) => return Err(fault),
    }
    match check_branch(alloc, ctx, scope, bad, err, second) {
        Ok(no) => push(founds, no)?,
        Err(fault) => return Err(fault),
    }
    Ok(())
}

/// A match of a response, whose parts have names that are free.
#[cycle(check)]
fn check_response(
    alloc: Global,
    ctx: &Context,
    scope: &mut Scope,
    head: Span,
    good: Word,
    bad: Word,
    input: &Sexpr,
    first: &Sexpr,
    second: &Sexpr,
    span: Span,
) -> Result<Checked, Fault<Break>>
    requires small { tree_size input.now + tree_size first.now + tree_size second.now < 2 ^ 21 }
    requires one { Fits input.now }
    requires two { Fits first.now }
    requires three { Fits second.now }
    requires free { shadowed_in ctx.now scope.old.entries (good.name ∷ bad.name ∷ []) ≡ false }
    ensures found { ChecksResponse ctx.now scope.old.entries input.now good first.now bad second.now span result }
    ensures text { IfOk result (λ c. expression_of c.code ≡ headed (codes "match") head (response_branches good bad (input.now ∷ first.now ∷ second.now ∷ [])) span) }
    ensures kept { IfOk result (λ _. scope.new.entries ≡ scope.old.entries) }
{
    let found = match check_expr(alloc, ctx, scope, input) {
        Ok(found) => found,
        Err(fault) => return Err(fault),
    };
    let Some((ok, err)) = parts_of(alloc, &found)? else {
        return Err(broken(Rule::ArgumentKind, span));
    };
    let mut parts = single(alloc, found)?;
    match check_both(
        alloc, ctx, scope, &mut parts, good.name, ok, first, bad.name, err, second,
    ) {
        Ok(()) => {}
        Err(fault) => return Err(fault),
    }
    let concluded = on_response(alloc, &parts);
    let op = Op::MatchResponse { head, good, bad };
    finish(alloc, op, parts, concluded, span)
}

/// A match.
#[cycle(check)]
fn check_match(
    alloc: Global,
    ctx: &Context,
    scope: &mut Scope,
    head: Span,
    args: &[Sexpr],
    span: Span,
) -> Result<Checked, Fault<Break>>
    requires small { forest_size (forest args.now) < 2 ^ 21 }
    requires fits { AllFit (forest args.now) }
    requires enough { takes (row_of heads.Match).arity (length args.now) ≡ true }
    ensures found { ChecksHead ctx.now heads.Match scope.old.entries args.now span result }
    ensures text { IfOk result (λ c. expression_of c.code ≡ headed (codes "match") head args.now span) }
    ensures kept { IfOk result (λ _. scope.new.entries ≡ scope.old.entries) }
{
    if let Some((input, name, some, none)) = four(args) {
        let Some(part) = name_in(name) else {
            return Err(broken(Rule::BadBinding, span));
        };
        if is_taken(ctx, scope, &part.name) {
            return Err(broken(Rule::ShadowedName, span));
        }
        return check_optional(alloc, ctx, scope, head, part, input, some, none, span);
    }
    let Some((input, first, yes, second, no)) = five(args) else {
        unreachable!()
    };
    let Some((good, bad)) = names_in(first, second) else {
        return Err(broken(odd_rule(ctx, scope, first, second), span));
    };
    if is_pair_taken(ctx, scope, &good.name, &bad.name) {
        return Err(broken(Rule::ShadowedName, span));
    }
    check_response(alloc, ctx, scope, head, good, bad, input, yes, no, span)
}

/// A native with a name that isn't evaluated.
#[cycle(check)]
fn check_named(
    alloc: Global,
    ctx: &Context,
    scope: &mut Scope,
    native: NameNative,
    head: Span,
    args: &[Sexpr],
    span: Span,
) -> Result<Checked, Fault<Break>>
    requires small { forest_size (forest args.now) < 2 ^ 21 }
    requires fits { AllFit (forest args.now) }
    requires enough { takes (row_of (name_head native)).arity (length args.now) ≡ true }
    ensures found { ChecksHead ctx.now (name_head native) scope.old.entries args.now span result }
    ensures text { IfOk result (λ c. expression_of c.code ≡ headed (name_of (name_head native)) head args.now span) }
    ensures kept { IfOk result (λ _. scope.new.entries ≡ scope.old.entries) }
{
    let Some((first, rest)) = split(args) else {
        unreachable!()
    };
    let Some(name) = name_in(first) else {
        return Err(broken(Rule::BadBinding, span));
    };
    let Some(found) = given_by(ctx, native, &name.name) else {
        return Err(broken(missing(native), span));
    };
    let parts = match check_parts(alloc, ctx, scope, rest) {
        Ok(parts) => parts,
        Err(fault) => return Err(fault),
    };
    let concluded = on_name(alloc, native, &found, &parts);
    let op = Op::OnName { native, head, name };
    finish(alloc, op, parts, concluded, span)
}

/// A native that applies what is given by name.
#[cycle(check)]
fn check_iteration(
    alloc: Global,
    ctx: &Context,
    scope: &mut Scope,
    iteration: Iteration,
    head: Span,
    args: &[Sexpr],
    span: Span,
) -> Result<Checked, Fault<Break>>
    requires small { forest_size (forest args.now) < 2 ^ 21 }
    requires fits { AllFit (forest args.now) }
    requires enough { takes (row_of (iteration_head iteration)).arity (length args.now) ≡ true }
    ensures found { ChecksHead ctx.now (iteration_head iteration) scope.old.entries args.now span result }
    ensures text { IfOk result (λ c. expression_of c.code ≡ headed (name_of (iteration_head iteration)) head args.now span) }
    ensures kept { IfOk result (λ _. scope.new.entries ≡ scope.old.entries) }
{
    let Some((first, rest)) = split(args) else {
        unreachable!()
    };
    let Some(used) = use_at(ctx, first) else {
        return Err(broken(Rule::NotAFunction, span));
    };
    if !takes_values(&used.usable, rest) {
        return Err(broken(Rule::ArgumentCount, span));
    }
    let parts = match check_parts(alloc, ctx, scope, rest) {
        Ok(parts) => parts,
        Err(fault) => return Err(fault),
    };
    let concluded = on_iteration(alloc, iteration, &used.usable, &parts);
    let op = Op::Iterate {
        iteration,
        head,
        applied: used.applied,
    };
    finish(alloc, op, parts, concluded, span)
}

/// A call of a function of another contract.
#[cycle(check)]
fn check_contract_call(
    alloc: Global,
    ctx: &Context,
    scope: &mut Scope,
    head: Span,
    args: &[Sexpr],
    span: Span,
) -> Result<Checked, Fault<Break>>
    requires small { forest_size (forest args.now) < 2 ^ 21 }
    requires fits { AllFit (forest args.now) }
    requires enough { takes (row_of heads.ContractCall).arity (length args.now) ≡ true }
    ensures found { ChecksHead ctx.now heads.ContractCall scope.old.entries args.now span result }
    ensures text { IfOk result
        (λ c. expression_of c.code ≡ headed (codes "contract-call?") head args.now span) }
    ensures kept { IfOk result (λ _. scope.new.entries ≡ scope.old.entries) }
{
    let Some((first, second, rest)) = split_two(args) else {
        unreachable!()
    };
    let Some((target, principal)) = target_in(&ctx.principal, first) else {
        return Err(broken(Rule::LiteralExpected, span));
    };
    let Some(contract) = another_at(ctx, &principal) else {
        return Err(broken(Rule::NoSuchContract, span));
    };
    let Some(function) = name_in(second) else {
        return Err(broken(Rule::BadBinding, span));
    };
    let Some(f) = callable(contract, &function.name) else {
        return Err(broken(Rule::NoSuchFunction, span));
    };
    if !has_as_many(rest, f) {
        return Err(broken(Rule::ArgumentCount, span));
    }
    let callee = callee_of(alloc, f, contract.parts().source_length)?;
    let parts = match check_parts(alloc, ctx, scope, rest) {
        Ok(parts) => parts,
        Err(fault) => return Err(fault),
    };
    let concluded = on_callee(alloc, f, &parts);
    let op = Op::ContractCall {
        head,
        target,
        function,
        callee,
    };
    finish(alloc, op, parts, concluded, span)
}

/// A list that begins with a native.
#[cycle(check)]
fn check_head(
    alloc: Global,
    ctx: &Context,
    scope: &mut Scope,
    head: Head,
    at: Span,
    args: &[Sexpr],
    span: Span,
) -> Result<Checked, Fault<Break>>
    requires small { forest_size (forest args.now) < 2 ^ 21 }
    requires fits { AllFit (forest args.now) }
    requires had { has_head ctx.now.version head ≡ true }
    ensures found { ChecksHead ctx.now head scope.old.entries args.now span result }
    ensures text { IfOk result
        (λ c. expression_of c.code ≡ headed (name_of head) at args.now span) }
    ensures kept { IfOk result (λ _. scope.new.entries ≡ scope.old.entries) }
{
    if !has_enough(head, args) {
        return Err(broken(Rule::ArgumentCount, span));
    }
    match kind_of(head) {
        Kind::Evaluated(native) => check_native(alloc, ctx, scope, native, at, args, span),
        Kind::Named(native) => check_named(alloc, ctx, scope, native, at, args, span),
        Kind::Let => check_let(alloc, ctx, scope, at, args, span),
        Kind::Match => check_match(alloc, ctx, scope, at, args, span),
        Kind::TupleOf => check_pairs(alloc, ctx, scope, at, args, span),
        Kind::AsMaxLen => check_max_len(alloc, ctx, scope, at, args, span),
        Kind::ContractCall => check_contract_call(alloc, ctx, scope, at, args, span),
        Kind::Iterate(iteration) => {
            check_iteration(alloc, ctx, scope, iteration, at, args, span)
        }
    }
}

/// A call of a function of the contract.
#[cycle(check)]
fn check_call(
    alloc: Global,
    ctx: &Context,
    scope: &mut Scope,
    f: &Signature,
    head: Word,
    args: &[Sexpr],
    span: Span,
) -> Result<Checked, Fault<Break>>
    requires small { forest_size (forest args.now) < 2 ^ 21 }
    requires fits { AllFit (forest args.now) }
    requires there { Some f.now ≡ named_in head.name ctx.now.functions.entries }
    requires own { None ≡ native ctx.now.version head.name }
    ensures found { ChecksCall ctx.now head.name scope.old.entries args.now span result }
    ensures text { IfOk result
        (λ c. expression_of c.code ≡ headed head.name head.span args.now span) }
    ensures kept { IfOk result (λ _. scope.new.entries ≡ scope.old.entries) }
{
    if !has_count(args, f) {
        return Err(broken(Rule::ArgumentCount, span));
    }
    let parts = match check_parts(alloc, ctx, scope, args) {
        Ok(parts) => parts,
        Err(fault) => return Err(fault),
    };
    let concluded = on_call(alloc, f, &parts);
    finish(alloc, Op::Call(head), parts, concluded, span)
}

#[cycle(check)]
fn check_list(
    alloc: Global,
    ctx: &Context,
    scope: &mut Scope,
    items: &[Sexpr],
    span: Span,
) -> Result<Checked, Fault<Break>>
    requires small { forest_size (forest items.now) < 2 ^ 21 }
    requires fits { AllFit (forest items.now) }
    ensures found { Checks ctx.now scope.old.entries (ListAt (forest items.now) span) result }
    ensures text { IfOk result (λ c. expression_of c.code ≡ ListAt (forest items.now) span) }
    ensures kept { IfOk result (λ _. scope.new.entries ≡ scope.old.entries) }
{
    let Some((head, args)) = headed(items) else {
        return Err(broken(Rule::EmptyForm, span));
    };
    if let Some(row) = native(&head.name, ctx.version) {
        return check_head(alloc, ctx, scope, row.head, head.span, args, span);
    }
    if let Some(f) = function_under(&ctx.functions, &head.name) {
        return check_call(alloc, ctx, scope, f, head, args, span);
    }
    Err(broken(Rule::UnknownName, span))
}

/// The typed tree of an expression, or the first rule that it breaks, and where.
#[cycle(check)]
pub(crate) fn check_expr(
    alloc: Global,
    ctx: &Context,
    scope: &mut Scope,
    e: &Sexpr,
) -> Result<Checked, Fault<Break>>
    requires small { tree_size e.now ≤ 2 ^ 21 }
    requires fits { Fits e.now }
    ensures found { Checks ctx.now scope.old.entries e.now result }
    ensures text { IfOk result (λ c. expression_of c.code ≡ e.now) }
    ensures kept { IfOk result (λ _. scope.new.entries ≡ scope.old.entries) }
{
    let span = e.span;
    match &e.node {
        Node::Int(z) => int(alloc, *z, span),
        Node::Uint(n) => uint(alloc, *n, span),
        Node::Atom(name) => check_name(alloc, ctx, scope, name, span),
        Node::Standing(p) => standing(alloc, p, span),
        Node::Local(c) => local(alloc, c, span),
        Node::Buff(bytes) => buff(alloc, bytes, span),
        Node::Ascii(text) => ascii(alloc, text, span),
        Node::Utf8(text) => utf8(alloc, text, span),
        Node::List(items) => check_list(alloc, ctx, scope, items, span),
        Node::Tuple(pairs) => check_tuple(alloc, ctx, scope, pairs, span),
    }
}
