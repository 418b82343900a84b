//! What a contract that is being deployed doesn't define yet is new. Each function here is a law, and
//! does nothing.
#![tactic(auto)]

ghost use Rattle.cl_newness.specs.Laws.{NewAfter, NewAtFirst, NewHere, TopMakesNone};

/// An evaluation at the top of a contract makes no token.
pub fn evaluations_make_no_tokens()
    ensures { TopMakesNone }
{}

/// Where no name is defined twice, and no token of the contract's is there before its deployment:
/// when the turn of a form comes, no constant has its name, and no token of the contract's.
pub fn what_is_ahead_is_new()
    ensures first { NewAtFirst }
    ensures here { NewHere }
    ensures after { NewAfter }
{}
