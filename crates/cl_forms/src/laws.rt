//! What holds of the table of natives: each function here is a law, and does nothing.
ghost use Rattle.std.specs.Prelude.{◌≡◌, ℕ, true, List, Some};
ghost use Rattle.cl_forms.specs.Heads.{Version, Head, Row, native, row_of};
ghost use Rattle.cl_forms.specs.HeadNames.{name_of, head_of, has_head};

/// Each native is found under its name in the versions that have it, and in each version under no other name.
pub fn natives_have_one_name()
    ensures found { (version : Version) (h : Head) → has_head version h ≡ true → head_of version (name_of h) ≡ Some h }
    ensures alone { (version : Version) (name : List ℕ) (h : Head) → head_of version name ≡ Some h → name ≡ name_of h }
{}

/// A row that is found by a name in a version is the one of its head, and the version has it.
pub fn rows_are_of_heads()
    ensures own { (version : Version) (name : List ℕ) (row : Row) → native version name ≡ Some row → row ≡ row_of row.head }
    ensures had { (version : Version) (name : List ℕ) (row : Row) → native version name ≡ Some row → has_head version row.head ≡ true }
{}
