//! Events told to one listener.
ghost use Rattle.std.specs.Prelude.{◌≡◌, true, false, ℕ};
ghost use Rattle.cl_listeners.specs.Hearing.{HeardAll, WentDeaf, heard_by};

use crate::Listener;
use cl_events::Event;

/// Tells the listener the events in order until it fails; whether it never did.
pub(crate) fn tell<L: Listener>(listener: &mut L, events: &[Event]) -> bool
    ensures heard { (n : ℕ) → result ≡ true → HeardAll events.now (heard_by n (L.heard listener.old) (L.faults listener.old)) (heard_by n (L.heard listener.new) (L.faults listener.new)) }
    ensures deaf { (n : ℕ) → result ≡ false → WentDeaf events.now (heard_by n (L.heard listener.old) (L.faults listener.old)) (heard_by n (L.heard listener.new) (L.faults listener.new)) }
{
    for i in 0..events.len() {
        if listener.hear(&events[i]).is_err() {
            return false;
        }
    }
    true
}
