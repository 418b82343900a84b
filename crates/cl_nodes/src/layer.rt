//! The layer on which an entry is evaluated.
ghost use Rattle.std.specs.Prelude.{◌≡◌, ◌∷◌, [], length, IfOk, IsOk, if◌then◌else◌};
ghost use Rattle.cl_events.specs.State.{at_rest};
ghost use Rattle.cl_post.specs.Post.{holds};

use cl_events::Event;
use cl_post::holds;
use cl_state::World;
use cl_tx::Common;
use cl_types::NoMemory;
use std::alloc::Global;

fn copy_all(alloc: Global, events: &[Event]) -> Result<Vec<Event>, NoMemory>
    ensures { IfOk result (λ v. v.items ≡ events.now) }
{
    let mut copies = Vec::new(alloc);
    for event in events {
        copies.push(event.copy(alloc)?)?;
    }
    Ok(copies)
}

/// The place of the first post-condition of an entry that fails, by what moved on its layer.
pub fn failing(alloc: Global, world: &World, common: &Common) -> Option<u32>
    ensures { result ≡ holds world.now.stack.top.moves common.now.mode common.now.conditions }
{
    holds(
        alloc,
        world.moves(),
        common.mode,
        common.conditions.as_slice(),
    )
}

/// Makes the one layer the base, and gives its events. Takes no memory, so it is never refused.
pub fn keep(world: &mut World) -> Result<Vec<Event>, NoMemory>
    requires { length world.old.stack.below ≡ 1 }
    ensures always { IsOk result }
    ensures events { IfOk result (λ events. events.items ≡ world.old.stack.top.events) }
    ensures rests { world.new.stack.top ≡ at_rest world.old.stack.top }
    ensures base { world.new.stack.below ≡ [] }
{
    match world.commit_events() {
        Ok(events) => Ok(events),
        Err(_error) => unreachable!(),
    }
}

/// Takes the one layer off, and gives its events where they are asked for.
pub(crate) fn take_off(
    alloc: Global,
    world: &mut World,
    asked: bool,
) -> Result<Vec<Event>, NoMemory>
    requires { length world.old.stack.below ≡ 1 }
    ensures events { IfOk result
        (λ events. events.items ≡ (if asked then world.old.stack.top.events else [])) }
    ensures base { world.new.stack.below ≡ [] }
    ensures undone { world.new.stack.top ∷ [] ≡ world.old.stack.below }
{
    let events = if asked {
        copy_all(alloc, world.events())
    } else {
        Ok(Vec::new(alloc))
    };
    world.drop_layer();
    events
}
