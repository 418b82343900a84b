//! Laws of spots: the parts of a state that contracts name.
#![tactic(auto)]

ghost use Rattle.std.specs.Prelude.{◌≡◌, ◌++◌, ℕ, Bool, List, if◌then◌else◌};
ghost use Rattle.cl_maps.specs.Maps.{Map, get};
ghost use Rattle.cl_tables.specs.declared.place.Place.{Place};
ghost use Rattle.cl_tables.specs.Variables.{IsPlace, key_of};
ghost use Rattle.cl_spots.specs.Spots.{joined};
ghost use Rattle.cl_spots.specs.Laws.{GraftsAgree, GraftsChangeSpotsAlone, GraftsAreAll};
ghost use Rattle.cl_spots.specs.Laws.{OthersAgree, ChangesFollow};

pub use cl_tables::Spot;

/// A map that is joined of two answers as one of them at the keys of a test, and elsewhere as the
/// other.
pub fn joined_maps_answer_so<A>()
    ensures { (test : List ℕ → Bool) (from m : Map A) (key : List ℕ) →
        get key (joined test from m) ≡ (if test key then get key from else get key m) }
{}

/// No key of a place, whatever stands behind it, is that of another place.
pub fn places_begin_apart()
    ensures { (a b : Place) → IsPlace a → IsPlace b → (behind rest : List ℕ) →
        key_of a ++ behind ≡ key_of b ++ rest → a ≡ b }
{}

/// A state that is grafted at spots agrees there with the one that it was grafted from, and nothing
/// changes elsewhere; there is no other such state. Where a state was changed at spots alone, it
/// agrees with the one before at all others.
pub fn grafts_are_at_spots()
    ensures agree { GraftsAgree }
    ensures elsewhere { GraftsChangeSpotsAlone }
    ensures all { GraftsAreAll }
    ensures others { OthersAgree }
    ensures follow { ChangesFollow }
{}
