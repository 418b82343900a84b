//! The walk: the only functions that evaluate a part, by the steps of `cl_audit_steps`.
ghost use Rattle.std.specs.Prelude.{◌≡◌, ◌++◌};
ghost use Rattle.cl_forms.specs.NativeRows.{row_seen};
ghost use Rattle.cl_meaning.specs.Calls.{body_in};
ghost use Rattle.cl_meaning.specs.Control.{throwing, let_in};
ghost use Rattle.cl_meaning.specs.Meaning.{node, means, applied};
ghost use Rattle.cl_meaning.specs.Scope.{OwnFunction, ByName, parts, binding, in_frame, as_contract, called, BoundValues};
ghost use Rattle.cl_meaning.specs.Sequences.{mapped, filtered, fold_of};
ghost use Rattle.cl_meaning.specs.Values.{tuple_form};
ghost use Rattle.cl_audit_steps.specs.Items.{fields_seen};
ghost use Rattle.cl_audit_steps.specs.Seen.{callee_seen, frame_seen, function_seen, seen};
ghost use Rattle.cl_audit_steps.specs.Steps.{chain, on_read, on_act, on_acts, last_step, end_step, start_step};
ghost use Rattle.cl_audit_walk.specs.Evaluates.{Evaluates, around, items_in};
ghost use Rattle.cl_audit_walk.specs.Turns.{in_turn, field_taken, results_of};

use crate::calls::{bind, close, is_public, take_early_return};
use crate::run::{Run, computed_value, pay};
use cl_audit_steps::{
    Callee, Chain, Charge, End, Frame, Function, Last, Link, NamedValues, Names, OnAct, OnActs,
    OnRead, Part, Scope, Start, binding, first_step, last, link, link_end, on_act, on_acts, on_all,
    on_name, on_one, on_read, on_tuple,
};
use cl_c32::Principal;
use cl_forms::NativeRow;
use cl_operands::{entry_at, pair, row_at, sieve, width};
use cl_seq::{list_of, try_len};
use cl_sexpr::{Sexpr, Span};
use cl_shapes::CostName;
use cl_types::Name;
use cl_values::Val;
use cl_walks::Stop;
use std::slice::from_ref;

/// Evaluates an item to a depth.
#[cycle(walk)]
pub fn take(
    run: &mut Run,
    scope: &Scope,
    names: &Names,
    item: &Sexpr,
    depth: u32,
) -> Result<Val, Stop>
    ensures { Evaluates scope.now
        (means depth (around scope.now names.now) item.now)
        run.old result run.new }
{
    if depth == 0 {
        return Err(Stop::Stuck);
    }
    let value = visit(run, scope, names, item, depth - 1)?;
    run.cursor.look(item.span, &value);
    Ok(value)
}

/// A node, whose parts are evaluated to the depth below.
#[cycle(walk)]
fn visit(run: &mut Run, scope: &Scope, names: &Names, item: &Sexpr, below: u32) -> Result<Val, Stop>
    ensures { Evaluates scope.now
        (node (means below) (applied below) (around scope.now names.now) item.now)
        run.old result run.new }
{
    let first = first_step(scope, names, item)?;
    begin(run, scope, names, first, below)
}

/// A node, from its first step on.
#[cycle(walk)]
fn begin(run: &mut Run, scope: &Scope, names: &Names, start: Start, below: u32) -> Result<Val, Stop>
    ensures { Evaluates scope.now
        (start_step (means below) (applied below) (around scope.now names.now) start.entry)
        run.old result run.new }
{
    let Start { charge, part } = start;
    pay(run, scope, charge)?;
    match part {
        Part::Ends(last) => end_as(run, scope, names, last, below),
        Part::One(item, kind) => {
            let value = take(run, scope, names, item, below)?;
            end(run, scope, names, on_one(scope, kind, value)?, below)
        }
        Part::All(items, kind) => {
            let values = take_all(run, scope, names, items, below)?;
            end(run, scope, names, on_all(scope, kind, values)?, below)
        }
        Part::Truths(chain, items) => truths(run, scope, names, chain, items, below),
        Part::Let(bindings, body) => let_in(run, scope, names, bindings, body, below),
        Part::Tuple(fields) => tuple(run, scope, names, &fields, below),
        Part::Read(kind) => read(run, scope, names, kind, below),
        Part::Act(item, kind) => {
            let value = take(run, scope, names, item, below)?;
            act(run, scope, names, (kind, value), below)
        }
        Part::Acts(items, kind) => {
            let values = take_all(run, scope, names, items, below)?;
            acts(run, scope, names, (kind, values), below)
        }
    }
}

/// A node, from its end on.
#[cycle(walk)]
fn end(run: &mut Run, scope: &Scope, names: &Names, end: End, below: u32) -> Result<Val, Stop>
    ensures { Evaluates scope.now
        (end_step (means below) (applied below) (around scope.now names.now) end.entry)
        run.old result run.new }
{
    let End { charge, last } = end;
    pay(run, scope, charge)?;
    end_as(run, scope, names, last, below)
}

/// The end of a node.
#[cycle(walk)]
fn end_as(run: &mut Run, scope: &Scope, names: &Names, last: Last, below: u32) -> Result<Val, Stop>
    ensures { Evaluates scope.now
        (last_step (means below) (applied below) (around scope.now names.now) last.entry)
        run.old result run.new }
{
    match last {
        Last::Give(value) => Ok(value),
        Last::Throw(value) => Err(Stop::Thrown(value)),
        Last::Abort(why) => Err(Stop::Aborted(why)),
        Last::Wrong => Err(Stop::Stuck),
        Last::As(item) => take(run, scope, names, item, below),
        Last::Throwing(item) => throw(run, scope, names, item, below),
        Last::With(name, value, item) => with(run, scope, names, (name, value), item, below),
        Last::AsContract(item) => as_contract(run, scope, names, item, below),
        Last::Enter(function, values) => enter(run, scope, &function, &values, below),
        Last::EnterIn(contract, function, values) => {
            enter_in(run, scope, contract, &function, &values, below)
        }
        Last::Map(callee, values) => map_entries(run, scope, &callee, &values, below),
        Last::Filter(callee, value) => filter(run, scope, &callee, value, below),
        Last::Fold(callee, value, first) => fold(run, scope, &callee, &value, first, below),
    }
}

/// A part whose value is thrown.
#[cycle(walk)]
fn throw(run: &mut Run, scope: &Scope, names: &Names, item: &Sexpr, below: u32) -> Result<Val, Stop>
    ensures { Evaluates scope.now
        (throwing (means below) (around scope.now names.now) item.now)
        run.old result run.new }
{
    let value = take(run, scope, names, item, below)?;
    Err(Stop::Thrown(value))
}

/// The values of all parts, from the left.
#[cycle(walk)]
fn take_all(
    run: &mut Run,
    scope: &Scope,
    names: &Names,
    items: &[Sexpr],
    below: u32,
) -> Result<Vec<Val>, Stop>
    ensures { Evaluates scope.now
        (parts (means below) (around scope.now names.now) items.now)
        run.old (items_in result) run.new }
{
    let mut values = Vec::with_capacity(scope.alloc, items.len())?;
    for item in items {
        let value = take(run, scope, names, item, below)?;
        values.push_reserved(value);
    }
    Ok(values)
}

/// The parts of `and` or `or`, up to the first that decides.
#[cycle(walk)]
fn truths(
    run: &mut Run,
    scope: &Scope,
    names: &Names,
    kind: Chain,
    items: &[Sexpr],
    below: u32,
) -> Result<Val, Stop>
    ensures { Evaluates scope.now
        (chain kind (means below) (around scope.now names.now) items.now)
        run.old result run.new }
{
    for item in items {
        let value = take(run, scope, names, item, below)?;
        match link(kind, value) {
            Link::Ends(value) => return Ok(value),
            Link::More => {}
            Link::Wrong => return Err(Stop::Stuck),
        }
    }
    Ok(link_end(kind))
}

/// A part that sees one more name.
#[cycle(walk)]
fn with(
    run: &mut Run,
    scope: &Scope,
    names: &Names,
    bound: (&Name, Val),
    item: &Sexpr,
    below: u32,
) -> Result<Val, Stop>
    ensures { Evaluates scope.now
        (means below (binding bound.entry.0.now bound.entry.1
        (around scope.now names.now)) item.now)
        run.old result run.new }
{
    let mut own = NamedValues::new(scope.alloc, scope.contracts.hash_key());
    own.push(*bound.0, bound.1)?;
    within(run, scope, names, &own, item, below)
}

/// A part with sender and caller the contract itself.
#[cycle(walk)]
fn as_contract(
    run: &mut Run,
    scope: &Scope,
    names: &Names,
    item: &Sexpr,
    below: u32,
) -> Result<Val, Stop>
    ensures { Evaluates scope.now
        (means below (in_frame (as_contract (around scope.now names.now).frame)
        (around scope.now names.now)) item.now)
        run.old result run.new }
{
    let frame = Frame {
        contract: scope.frame.contract,
        sender: scope.frame.contract,
        caller: scope.frame.contract,
        height: scope.frame.height,
    };
    let inner = Scope {
        alloc: scope.alloc,
        opening: scope.opening,
        contracts: scope.contracts,
        frame: &frame,
        costs: scope.costs,
    };
    take(run, &inner, names, item, below)
}

/// The application of a function to values, to a depth.
#[cycle(walk)]
pub fn enter(
    run: &mut Run,
    scope: &Scope,
    function: &Function,
    values: &[Val],
    depth: u32,
) -> Result<Val, Stop>
    ensures { (outer : BoundValues) → Evaluates scope.now
        (applied depth (seen scope.now outer) (OwnFunction (function_seen function.now)) values.now)
        run.old result run.new }
{
    if depth == 0 {
        return Err(Stop::Stuck);
    }
    let charge = Charge::at(CostName::Call, values.len() as u64)?;
    pay(run, scope, Some(charge))?;
    let own = bind(run, scope, function.params, values)?;
    body(run, scope, function, &own, depth - 1)
}

/// The body of a function; where a public one answers err or stops, the state is as it was before.
#[cycle(walk)]
fn body(
    run: &mut Run,
    scope: &Scope,
    function: &Function,
    own: &NamedValues,
    below: u32,
) -> Result<Val, Stop>
    ensures { (outer : BoundValues) → Evaluates scope.now
        (body_in (means below) (seen scope.now outer) (function_seen function.now) own.now)
        run.old result run.new }
{
    let names = Names::alone(&*own);
    if is_public(function.access) {
        run.world.push_layer()?;
        let answer = take(run, scope, &names, function.body, below);
        close(take_early_return(answer), &mut run.world)
    } else {
        take_early_return(take(run, scope, &names, function.body, below))
    }
}

/// Bindings, each seeing those before it, and then the parts of a body.
#[cycle(walk)]
fn let_in(
    run: &mut Run,
    scope: &Scope,
    names: &Names,
    bindings: &[Sexpr],
    body: &[Sexpr],
    below: u32,
) -> Result<Val, Stop>
    ensures { Evaluates scope.now
        (let_in (means below) body.now (around scope.now names.now) bindings.now)
        run.old result run.new }
{
    let mut own = NamedValues::new(scope.alloc, scope.contracts.hash_key());
    for item in bindings {
        let Some((name, part)) = binding(item) else {
            return Err(Stop::Stuck);
        };
        let value = within(run, scope, names, &own, part, below)?;
        pay(run, scope, Some(Charge::of(CostName::Bind, &value)))?;
        own.push(*name, value)?;
    }
    let inner = Names::within(&*names, &own);
    let values = take_all(run, scope, &inner, body, below)?;
    end_as(run, scope, &inner, last(values), below)
}

/// A part that sees more names.
#[cycle(walk)]
fn within(
    run: &mut Run,
    scope: &Scope,
    names: &Names,
    own: &NamedValues,
    item: &Sexpr,
    below: u32,
) -> Result<Val, Stop>
    ensures { Evaluates scope.now
        (means below (seen scope.now (names.now.values ++ own.now)) item.now)
        run.old result run.new }
{
    let inner = Names::within(&*names, &*own);
    take(run, scope, &inner, item, below)
}

/// The parts of a tuple with their keys, in the order of the text.
#[cycle(walk)]
fn take_fields(
    run: &mut Run,
    scope: &Scope,
    names: &Names,
    fields: &[(&Name, &Sexpr)],
    below: u32,
) -> Result<Vec<(Name, Val)>, Stop>
    ensures { Evaluates scope.now
        (in_turn (field_taken (means below) (around scope.now names.now)) (fields_seen fields.now))
        run.old (items_in result) run.new }
{
    let mut entries = Vec::new(scope.alloc);
    for field in fields {
        let value = take(run, scope, names, field.1, below)?;
        entries.push((*field.0, value))?;
    }
    Ok(entries)
}

/// A tuple.
#[cycle(walk)]
fn tuple(
    run: &mut Run,
    scope: &Scope,
    names: &Names,
    fields: &[(&Name, &Sexpr)],
    below: u32,
) -> Result<Val, Stop>
    ensures { Evaluates scope.now
        (tuple_form (means below) (around scope.now names.now) (fields_seen fields.now))
        run.old result run.new }
{
    let entries = take_fields(run, scope, names, fields, below)?;
    end(run, scope, names, on_tuple(scope.alloc, entries)?, below)
}

/// What is read of the state.
#[cycle(walk)]
fn read(run: &mut Run, scope: &Scope, names: &Names, kind: OnRead, below: u32) -> Result<Val, Stop>
    ensures { Evaluates scope.now
        (on_read (around scope.now names.now) kind.entry)
        run.old result run.new }
{
    let found = on_read(&run.world, scope, kind)?;
    end(run, scope, names, found, below)
}

/// What is done on the state with a value.
#[cycle(walk)]
fn act(
    run: &mut Run,
    scope: &Scope,
    names: &Names,
    given: (OnAct, Val),
    below: u32,
) -> Result<Val, Stop>
    ensures { Evaluates scope.now
        (on_act (around scope.now names.now) given.entry.0 given.entry.1)
        run.old result run.new }
{
    let done = on_act(&mut run.world, scope, given.0, given.1)?;
    end(run, scope, names, done, below)
}

/// What is done on the state with values.
#[cycle(walk)]
fn acts(
    run: &mut Run,
    scope: &Scope,
    names: &Names,
    given: (OnActs, Vec<Val>),
    below: u32,
) -> Result<Val, Stop>
    ensures { Evaluates scope.now
        (on_acts (around scope.now names.now) given.entry.0 given.entry.1.items)
        run.old result run.new }
{
    let done = on_acts(&mut run.world, scope, given.0, given.1)?;
    end(run, scope, names, done, below)
}

/// The application of another contract's function to values.
#[cycle(walk)]
fn enter_in(
    run: &mut Run,
    scope: &Scope,
    contract: &Principal,
    function: &Function,
    values: &[Val],
    below: u32,
) -> Result<Val, Stop>
    ensures { (outer : BoundValues) → Evaluates scope.now
        (applied below
        (in_frame (called contract.now (frame_seen scope.now.frame.now)) (seen scope.now outer))
        (OwnFunction (function_seen function.now)) values.now)
        run.old result run.new }
{
    let frame = Frame {
        contract: *contract,
        sender: scope.frame.sender,
        caller: scope.frame.contract,
        height: scope.frame.height,
    };
    let inner = Scope {
        alloc: scope.alloc,
        opening: scope.opening,
        contracts: scope.contracts,
        frame: &frame,
        costs: scope.costs,
    };
    enter(run, &inner, function, values, below)
}

/// The application of a native to values, to a depth: it ends at the place of its name.
#[cycle(walk)]
fn by_name(
    run: &mut Run,
    scope: &Scope,
    row: &NativeRow,
    span: Span,
    values: Vec<Val>,
    depth: u32,
) -> Result<Val, Stop>
    ensures { (outer : BoundValues) → Evaluates scope.now
        (applied depth (seen scope.now outer) (ByName (row_seen row.now) span) values.items)
        run.old result run.new }
{
    if depth == 0 {
        return Err(Stop::Stuck);
    }
    let own = NamedValues::new(scope.alloc, scope.contracts.hash_key());
    let names = Names::alone(&own);
    let value = end(run, scope, &names, on_name(row, values)?, depth - 1)?;
    run.cursor.look(span, &value);
    Ok(value)
}

/// The application to values of what is given by name, to a depth.
#[cycle(walk)]
fn apply(
    run: &mut Run,
    scope: &Scope,
    callee: &Callee,
    values: Vec<Val>,
    depth: u32,
) -> Result<Val, Stop>
    ensures { (outer : BoundValues) → Evaluates scope.now
        (applied depth (seen scope.now outer) (callee_seen callee.now) values.items)
        run.old result run.new }
{
    match callee {
        Callee::Function(function) => enter(run, scope, function, &values, depth),
        Callee::Native(row, span) => by_name(run, scope, row, *span, values, depth),
    }
}

/// The results at the entries of sequences side by side.
#[cycle(walk)]
fn apply_each(
    run: &mut Run,
    scope: &Scope,
    callee: &Callee,
    sequences: &[Val],
    below: u32,
) -> Result<Vec<Val>, Stop>
    ensures { (outer : BoundValues) → Evaluates scope.now
        (results_of (applied below) (seen scope.now outer) (callee_seen callee.now) sequences.now)
        run.old (items_in result) run.new }
{
    let Some(count) = width(sequences) else {
        return Err(Stop::Stuck);
    };
    let mut results = Vec::new(scope.alloc);
    for place in 0..count {
        match row_at(scope.alloc, sequences, place)? {
            Some(row) => {
                let value = apply(run, scope, callee, row, below)?;
                results.push(value)?;
            }
            None => return Ok(results),
        }
    }
    Ok(results)
}

/// `map`: the list of the results.
#[cycle(walk)]
fn map_entries(
    run: &mut Run,
    scope: &Scope,
    callee: &Callee,
    sequences: &[Val],
    below: u32,
) -> Result<Val, Stop>
    ensures { (outer : BoundValues) → Evaluates scope.now
        (mapped (applied below) (seen scope.now outer) sequences.now (callee_seen callee.now))
        run.old result run.new }
{
    let results = apply_each(run, scope, callee, sequences, below)?;
    computed_value(list_of(scope.alloc, results))
}

/// `filter`: the entries at which the result is true.
#[cycle(walk)]
fn filter(
    run: &mut Run,
    scope: &Scope,
    callee: &Callee,
    sequence: Val,
    below: u32,
) -> Result<Val, Stop>
    ensures { (outer : BoundValues) → Evaluates scope.now
        (filtered (applied below) (seen scope.now outer) sequence (callee_seen callee.now))
        run.old result run.new }
{
    let results = apply_each(run, scope, callee, from_ref(&sequence), below)?;
    computed_value(sieve(scope.alloc, sequence, &results))
}

/// `fold`: what is given by name, applied to each entry and the result so far.
#[cycle(walk)]
fn fold(
    run: &mut Run,
    scope: &Scope,
    callee: &Callee,
    sequence: &Val,
    first: Val,
    below: u32,
) -> Result<Val, Stop>
    ensures { (outer : BoundValues) → Evaluates scope.now
        (fold_of (applied below) (seen scope.now outer) sequence.now first (callee_seen callee.now))
        run.old result run.new }
{
    let Some(count) = try_len(sequence) else {
        return Err(Stop::Stuck);
    };
    let mut so_far = first;
    for place in 0..count {
        match entry_at(scope.alloc, sequence, place)? {
            Some(entry) => {
                let values = pair(scope.alloc, entry, so_far)?;
                so_far = apply(run, scope, callee, values, below)?;
            }
            None => return Ok(so_far),
        }
    }
    Ok(so_far)
}
