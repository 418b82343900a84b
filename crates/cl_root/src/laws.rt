//! Laws of roots: each function here is one, and does nothing.
ghost use Rattle.std.specs.Prelude.{◌≡◌, ◌<◌, ◌^◌, ℕ, List, [], ◌∷◌, ◌++◌, Option, Some, length};
ghost use Rattle.sha2.specs.Sha256.{sha256};
ghost use Rattle.cl_events.specs.State.{State};
ghost use Rattle.cl_tables.specs.declared.row.StateRow.{StateRow};
ghost use Rattle.cl_tables.specs.StateRows.{IsRow};
ghost use Rattle.cl_root.specs.RowBytes.{key_bytes};
ghost use Rattle.cl_root.specs.Leaves.{Leaf, leaf_input, leaf_of};
ghost use Rattle.cl_root.specs.HashTree.{AreParts, IsRoot, root_of, root_of_parts};
ghost use Rattle.cl_root.specs.Paths.{IsPath, end_of};
ghost use Rattle.cl_root.specs.declared.side.Side.{Side};

/// The root of no leaf, of one leaf, and of more leaves by the roots of their two parts.
pub fn root_by_parts()
    ensures none { root_of [] ≡ sha256 [] }
    ensures one { (leaf : Leaf) → root_of (leaf ∷ []) ≡ sha256 (leaf_input leaf) }
    ensures parts { (left right : List Leaf) → AreParts left right →
        root_of (left ++ right) ≡ root_of_parts left right }
{}

/// A state has one root, and for each key one path or none.
pub fn states_have_one_root()
    ensures root { (s : State) (a b : List ℕ) → IsRoot a s → IsRoot b s → a ≡ b }
    ensures path { (s : State) (key : List ℕ) (a b : Option (List Side)) →
        IsPath a key s → IsPath b key s → a ≡ b }
{}

/// The path of a row leads to the root of its state.
pub fn paths_lead_to_roots()
    ensures { (s : State) (row : StateRow) (path : List Side) → IsRow s row →
        IsPath (Some path) (key_bytes row) s → IsRoot (end_of (leaf_of row) path) s }
{}

/// No two rows of a state have the same key bytes, and four bytes hold their length.
pub fn rows_have_keys_of_their_own()
    ensures own { (s : State) (a b : StateRow) →
        IsRow s a → IsRow s b → key_bytes a ≡ key_bytes b → a ≡ b }
    ensures short { (s : State) (row : StateRow) → IsRow s row → length (key_bytes row) < 2 ^ 32 }
{}
