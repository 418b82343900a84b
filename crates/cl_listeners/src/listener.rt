//! What hears events.
ghost use Rattle.std.specs.Prelude.{◌≡◌, ℕ, List, Option, OnOk, OnErr, option_map};
ghost use Rattle.cl_ports.specs.Sink.{CountsWriteFault};
ghost use Rattle.cl_events.specs.declared.event.Event.{Event as AnEvent};
ghost use Rattle.cl_listeners.specs.Hearing.{with_more, one};

use cl_events::Event;

/// A listener failed to hear an event.
#[derive(Clone, Copy)]
pub struct Deaf;

/// What hears events.
pub trait Listener: Drop {
    /// The events that were heard, in order, where that is told.
    ghost heard: { Self → Option (List AnEvent) };

    /// How often hearing has failed. The count stays at the last value of a `u64`.
    ghost faults: { Self → ℕ };

    /// Hears an event.
    ///
    /// # Errors
    ///
    /// `Deaf` where it failed; then nothing more was heard.
    fn hear(&mut self, event: &Event) -> Result<(), Deaf>
        ensures heard { OnOk result (heard self.new ≡ with_more (one event.now) (heard self.old)) }
        ensures deaf { OnErr result (heard self.new ≡ heard self.old) }
        ensures cause { CountsWriteFault (faults self.old) (faults self.new) result };

    /// The events that were heard, where that is told.
    fn told(&self) -> Option<&[Event]>
        ensures { option_map (λ events. events.now) result ≡ heard self.now };
}
