//! Where the natives end that take their parts one by one.
ghost use Rattle.std.specs.Prelude.{◌≡◌, true, false};
ghost use Rattle.cl_values.specs.Tree.{Tree, BoolV};
ghost use Rattle.cl_events.specs.State.{State};
ghost use Rattle.cl_meaning.specs.Answers.{Answer, give};
ghost use Rattle.cl_meaning.specs.Control.{choice};
ghost use Rattle.cl_calls.specs.Ended.{ended_or};

use cl_seq::bool_value;
use cl_values::Val;

/// What `and` ends with after a part that holds or doesn't; none where it takes the next part.
pub fn and_ends(holds: bool) -> Option<Val>
    ensures { (more : State → Answer Tree) (s : State) → ended_or result more s ≡ choice (BoolV holds) more (give (BoolV false)) s }
{
    if holds { None } else { Some(bool_value(false)) }
}

/// What `or` ends with after a part that holds or doesn't; none where it takes the next part.
pub fn or_ends(holds: bool) -> Option<Val>
    ensures { (more : State → Answer Tree) (s : State) → ended_or result more s ≡ choice (BoolV holds) (give (BoolV true)) more s }
{
    if holds { Some(bool_value(true)) } else { None }
}
