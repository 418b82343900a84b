//! What natives read of the state and do to it.
ghost use Rattle.cl_meaning.specs.Scope.{BoundValues};
ghost use Rattle.cl_audit_steps.specs.Seen.{seen};
ghost use Rattle.cl_audit_steps.specs.Steps.{on_read, on_act, on_acts};
ghost use Rattle.cl_audit_steps.specs.Acting.{Does, IsDone};

use crate::data::{
    delete_entry, insert_entry, print, read_entry, read_variable, set_variable, write_entry,
};
use crate::scope::Scope;
use crate::step::{End, OnAct, OnActs, OnRead};
use crate::tokens::{act_on, burn, read_balance, read_owner, read_stx, read_supply, send};
use cl_state::World;
use cl_types::NoMemory;
use cl_values::Val;

/// What is read without a part.
pub fn on_read<'a>(world: &World, scope: &Scope, kind: OnRead) -> Result<End<'a>, NoMemory>
    ensures { (outer : BoundValues) →
        IsDone (seen scope.now outer) (on_read (seen scope.now outer) kind.entry)
        world.now.stack.top result world.now.stack.top }
{
    match kind {
        OnRead::Variable(name) => read_variable(world, scope, name),
        OnRead::Supply(name) => read_supply(world, scope, name),
    }
}

/// What is done with the value of a part.
pub fn on_act<'a>(
    world: &mut World,
    scope: &Scope,
    kind: OnAct,
    value: Val,
) -> Result<End<'a>, NoMemory>
    ensures { (outer : BoundValues) →
        Does (seen scope.now outer) (on_act (seen scope.now outer) kind.entry value)
        world.old.stack result world.new.stack }
{
    match kind {
        OnAct::Print => print(world, scope, value),
        OnAct::SetVariable(name) => set_variable(world, scope, name, value),
        OnAct::ReadEntry(name) => read_entry(&*world, scope, name, value),
        OnAct::DeleteEntry(name) => delete_entry(world, scope, name, value),
        OnAct::ReadBalance(name) => read_balance(&*world, scope, name, value),
        OnAct::ReadStx => read_stx(&*world, value),
        OnAct::ReadOwner(name) => read_owner(&*world, scope, name, value),
    }
}

/// What is done with the values of all parts.
pub fn on_acts<'a>(
    world: &mut World,
    scope: &Scope,
    kind: OnActs,
    values: Vec<Val>,
) -> Result<End<'a>, NoMemory>
    ensures { (outer : BoundValues) →
        Does (seen scope.now outer) (on_acts (seen scope.now outer) kind.entry values.items)
        world.old.stack result world.new.stack }
{
    match kind {
        OnActs::WriteEntry(name) => write_entry(world, scope, name, values),
        OnActs::InsertEntry(name) => insert_entry(world, scope, name, values),
        OnActs::Token(native, name) => act_on(world, scope, native, name, values),
        OnActs::SendStx => send(world, scope, values),
        OnActs::BurnStx => burn(world, scope, values),
    }
}
