//! The parts of a state that functions of deployed contracts read and write. Each function here is a
//! law, and does nothing.
#![tactic(auto)]

ghost use Rattle.std.specs.Prelude.{◌≡◌, [], ◌∷◌, codes};
ghost use Rattle.cl_meaning.specs.AcrossRow.{both};
ghost use Rattle.cl_meaning.specs.Samples.{of_P0};
ghost use Rattle.cl_meaning.specs.TokenRow.{token};
ghost use Rattle.cl_tables.specs.declared.spot.Spot.TheVariants.{Token, Variable};
ghost use Rattle.cl_touch.specs.Bodies.{uses_of};
ghost use Rattle.cl_touch.specs.Touches.{Written};
ghost use Rattle.cl_touch.specs.Uses.{Applies, Crosses, Reads, Writes, of_own};
ghost use Rattle.cl_touch.specs.VersionRow.{old_and_new};
ghost use Rattle.cl_touch.specs.Laws.{WrittenIsTouched, CallsChangeWrittenAlone, CallsAnswerAlike, ReachedTouch, ReachedWrite, GraftsAreKept};

/// A call of a function, in any frame of its contract, with any values and in any state, changes
/// the state at the spots that the function writes alone. In two states that agree at the spots
/// that it touches, it has the same outcome, charges and trace, emits the same events, makes the
/// same moves, and leaves states that agree there.
pub fn calls_touch_their_spots_alone()
    ensures written { WrittenIsTouched }
    ensures changes { CallsChangeWrittenAlone }
    ensures alike { CallsAnswerAlike }
{}

/// The spots of a function are those that the functions which it reaches use by themselves: so they
/// are found by following applications until no new function is reached.
pub fn spots_are_those_of_reached_functions()
    ensures touched { ReachedTouch }
    ensures written { ReachedWrite }
{}

/// A state that is as the deployed contracts say stays so with any spots of another such state.
pub fn grafts_are_kept()
    ensures { GraftsAreKept }
{}

/// What bodies use by themselves, by example: a call of another contract and a variable that is
/// set; the function that is called; a transfer and a balance of the sample token. And a variable
/// of another contract that is written through a call.
pub fn spots_of_examples()
    ensures crosses { uses_of both (of_P0 (codes "a")) (codes "go")
        ≡ Crosses (of_P0 (codes "b")) (codes "set-it")
        ∷ Writes (Variable (of_own (of_P0 (codes "a")) (codes "w"))) ∷ [] }
    ensures sets { uses_of both (of_P0 (codes "b")) (codes "set-it")
        ≡ Writes (Variable (of_own (of_P0 (codes "b")) (codes "v"))) ∷ [] }
    ensures sends { uses_of (token ∷ []) (of_P0 (codes "token")) (codes "transfer")
        ≡ Writes (Token (of_own (of_P0 (codes "token")) (codes "coin"))) ∷ [] }
    ensures reads { uses_of (token ∷ []) (of_P0 (codes "token")) (codes "get-balance")
        ≡ Reads (Token (of_own (of_P0 (codes "token")) (codes "coin"))) ∷ [] }
    ensures through { Written both (of_P0 (codes "a")) (codes "go")
        (Variable (of_own (of_P0 (codes "b")) (codes "v"))) }
{}

/// Each contract's natives are those of its own version: `bit-and` is a function of the contract in
/// a text of version 1, and a native in one of version 2. What the function writes is written by
/// the contract of version 2 that calls it.
pub fn spots_by_versions()
    ensures own { uses_of old_and_new (of_P0 (codes "old")) (codes "go")
        ≡ Applies (codes "bit-and") ∷ [] }
    ensures native { uses_of old_and_new (of_P0 (codes "new")) (codes "low") ≡ [] }
    ensures across { uses_of old_and_new (of_P0 (codes "new")) (codes "ask")
        ≡ Crosses (of_P0 (codes "old")) (codes "go") ∷ [] }
    ensures through { Written old_and_new (of_P0 (codes "new")) (codes "ask")
        (Variable (of_own (of_P0 (codes "old")) (codes "n"))) }
{}
