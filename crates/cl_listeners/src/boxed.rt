// A boxed listener is a listener: a call goes to the one inside.
use crate::{Deaf, Listener};
use cl_events::Event;

impl Listener for Box<dyn Listener> {
    ghost heard = { λ b. (Listener-box b).heard b.value };

    ghost faults = { λ b. (Listener-box b).faults b.value };

    fn hear(&mut self, event: &Event) -> Result<(), Deaf> {
        (**self).hear(event)
    }

    fn told(&self) -> Option<&[Event]> {
        (**self).told()
    }
}
