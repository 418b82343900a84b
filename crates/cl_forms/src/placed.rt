//! Where the expressions of forms stand, how deep they nest, and that their literals are within the limits.
ghost use Rattle.std.specs.Prelude.{◌≡◌, ℕ, List, slice_get, Some};
ghost use Rattle.cl_sexpr.specs.Tree.{Tree, Forest, forest, forest_depth};
ghost use Rattle.cl_sexpr.specs.Placed.{ArePlaced};
ghost use Rattle.cl_sexpr.specs.Fits.{AllFit};
ghost use Rattle.cl_forms.specs.Fits.{FormsFit};
ghost use Rattle.cl_forms.specs.Depth.{NestsAtMost};
ghost use Rattle.cl_forms.specs.Heads.{Version};
ghost use Rattle.cl_forms.specs.Forms.{Form, expression_of};
ghost use Rattle.cl_forms.specs.FormBreaks.{AreForms};
ghost use Rattle.cl_forms.specs.Shapes.{trees_of};
ghost use Rattle.cl_forms.specs.Placed.{AllPlaced, AreFormsPlaced};

/// Items that stand one after another are placed each, and so are the expressions of the forms that they are.
pub fn expressions_are_placed()
    ensures items { (low high : ℕ) (items : Forest) → ArePlaced low high items → AllPlaced (trees_of items) }
    ensures forms { (version : Version) (items : List Tree) (forms : List Form) → AllPlaced items → AreForms version items forms → AreFormsPlaced forms }
{}

/// The names and literals in the expressions of forms are within the limits, where those of their items are.
pub fn expressions_are_within_limits()
    ensures { (version : Version) (items : Forest) (forms : List Form) → AllFit items → AreForms version (trees_of items) forms → FormsFit forms }
{}

/// The expressions of forms nest no deeper than the items that the forms are made of.
pub fn expressions_nest_as_items()
    ensures { (version : Version) (items : List Tree) (forms : List Form) (n : ℕ) (form : Form) → AreForms version items forms → slice_get forms n ≡ Some form → NestsAtMost (forest_depth (forest items)) (expression_of form.kind) }
{}
