//! What holds of all types within the limits, and of their keys.
ghost use Rattle.std.specs.Prelude.{◌≡◌, ℕ, List, true, false, Ok, ◌⊎◌};
ghost use Rattle.std.specs.List.{All};
ghost use Rattle.cl_types.specs.Types.{PlainType, Fields};
ghost use Rattle.cl_types.specs.Sized.{IsSized, everywhere, fields_rise, is_among, is_below, keys_are_names, made, parts, placed, rises};

/// Whatever is made of a type whose keys are names is within the limits.
pub fn made_is_sized()
    ensures { (t made_of : PlainType) → everywhere keys_are_names t ≡ true → made t ≡ Ok made_of → IsSized made_of }
{}

/// A type within the limits is made of itself.
pub fn sized_is_made()
    ensures { (t : PlainType) → IsSized t → made t ≡ Ok t }
{}

/// Each part of a type within the limits is within them.
pub fn parts_are_sized()
    ensures { (t : PlainType) → IsSized t → All IsSized (parts t) }
{}

/// Keys are ordered: of two that differ one is below the other.
pub fn keys_are_ordered()
    ensures goes_on { (i j k : List ℕ) → is_below i j ≡ true → is_below j k ≡ true → is_below i k ≡ true }
    ensures total { (k j : List ℕ) → (k ≡ j) ⊎ ((is_below k j ≡ true) ⊎ (is_below j k ≡ true)) }
{}

/// Rising fields rise still with a key more in its place.
pub fn placed_keys_rise()
    ensures { (k : List ℕ) (t : PlainType) (fs : Fields) → is_among k fs ≡ false → fields_rise fs ≡ true → rises (placed k t fs) ≡ true }
{}
