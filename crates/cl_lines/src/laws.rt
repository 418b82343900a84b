//! Laws of the text of the report: each function here is one, and does nothing.
ghost use Rattle.std.specs.Prelude.{◌≡◌, ℕ, List};
ghost use Rattle.cl_events.specs.State.{State};
ghost use Rattle.cl_lines.specs.StateLines.{IsStateText};

/// A state has one text.
pub fn a_state_has_one_text()
    ensures { (s : State) (a b : List ℕ) → IsStateText s a → IsStateText s b → a ≡ b }
{}
