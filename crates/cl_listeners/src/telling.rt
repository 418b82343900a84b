//! Events told to all who listen.
ghost use Rattle.cl_listeners.specs.Hearing.{Told};

use crate::one::tell;
use crate::{Listener, Listeners};
use cl_events::Event;

/// Tells each active listener the events, in order, until it fails. One that failed moves to the end of the deaf ones, which are
/// told nothing. This takes no memory of its own.
pub fn dispatch<L: Listener>(listeners: &mut Listeners<L>, events: &[Event])
    ensures { Told events.now listeners.old listeners.new }
{
    let mut i = 0;
    while i < listeners.active.len() {
        if tell(&mut listeners.active[i].listener, events) {
            i += 1;
        } else {
            let left = listeners.active.remove(i);
            let Ok(()) = listeners.deaf.push(left) else {
                unreachable!();
            };
        }
    }
}
