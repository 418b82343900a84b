//! What holds of the items of all texts.
ghost use Rattle.std.specs.Prelude.{ℕ, ◌+◌, List, length};
ghost use Rattle.cl_sexpr.specs.Tree.{Forest};
ghost use Rattle.cl_sexpr.specs.Text.{Reads};
ghost use Rattle.cl_sexpr.specs.Placed.{ArePlaced};
ghost use Rattle.cl_sexpr.specs.Fits.{AllFit};

/// The items of a text stand in it one after another, none with an empty span, and so do the parts of each list and
/// tuple, in front of its last byte.
pub fn items_stand_in_order()
    ensures { (bytes : List ℕ) (items : Forest) → Reads bytes items → ArePlaced 0 (length bytes + 1) items }
{}

/// Each name, number, byte, character and principal in the items of a text is one, as the types of the code keep them; and
/// each tuple has a pair.
pub fn literals_are_within_limits()
    ensures { (bytes : List ℕ) (items : Forest) → Reads bytes items → AllFit items }
{}
