//! How many parts the forms of a text have.
ghost use Rattle.std.specs.Prelude.{◌≤◌, List, length};
ghost use Rattle.cl_sexpr.specs.Tree.{Tree, forest, forest_size};
ghost use Rattle.cl_forms.specs.Heads.{Version};
ghost use Rattle.cl_forms.specs.Forms.{Form};
ghost use Rattle.cl_forms.specs.FormBreaks.{AreForms};
ghost use Rattle.cl_forms.specs.Weights.{weight_of_forms};

/// Forms have no more parts than the items that they are made of; there are no more forms than parts.
pub fn forms_have_few_parts()
    ensures parts { (version : Version) (items : List Tree) (forms : List Form) → AreForms version items forms → weight_of_forms forms ≤ forest_size (forest items) }
    ensures forms { (forms : List Form) → length forms ≤ weight_of_forms forms }
{}
