//! What holds of literals and their texts.
ghost use Rattle.std.specs.Prelude.{◌≡◌, ◌≤◌, false, List, ℕ, length, Ok};
ghost use Rattle.cl_sexpr.specs.Tree.{Tree as Item, Then, Empty};
ghost use Rattle.cl_sexpr.specs.Text.{Reads};
ghost use Rattle.cl_values.specs.Tree.{Tree};
ghost use Rattle.cl_values.specs.Valid.{IsVal};
ghost use Rattle.cl_text.specs.Printed.{printed};
ghost use Rattle.cl_text.specs.Literal.{literal};
ghost use Rattle.cl_text.specs.Named.{has_number_key};
ghost use Rattle.cl_text.specs.Parsed.{Reading, Stands, Parses};

use cl_c32::{one_number, one_text};
use cl_sexpr::one_reading;

/// Each text has one outcome: a value, or a refusal with its span.
pub fn one_outcome()
    ensures { (text : List ℕ) (a b : Reading) → Parses text a → Parses text b → a ≡ b }
{
    one_reading();
}

/// The law that each text has an outcome. With [`one_outcome`] it has one alone.
pub fn each_text_has_an_outcome()
    ensures { (text : List ℕ) → (outcome : Reading) × Parses text outcome }
{}

/// What [`crate::print_value`] prints [`crate::parse`] reads as the value again, where it is no
/// longer than a source and no tuple in the value has a key that is `u` followed by digits alone.
pub fn printed_is_read()
    ensures item { (v : Tree) → IsVal v → has_number_key v ≡ false → length (printed v) ≤ 1048576 →
        (item : Item) × Reads (printed v) (Then item Empty) × (literal item ≡ Ok v) }
    ensures outcome { (v : Tree) → IsVal v → has_number_key v ≡ false → length (printed v) ≤ 1048576 →
        Parses (printed v) (Stands v) }
{
    one_number();
    one_text();
}
