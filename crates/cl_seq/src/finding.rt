//! The place of an item in a sequence.
ghost use Rattle.std.specs.Prelude.{◌≡◌, ◌∷◌, [], option_map, true};
ghost use Rattle.std.specs.List.{list_all};
ghost use Rattle.cl_values.specs.Tree.{BuffV, AsciiV, Utf8V, ListV, items_of};
ghost use Rattle.cl_values.specs.Valid.{IsVal, is_text_byte};
ghost use Rattle.cl_values.specs.Sequences.{equal, entries_of, place_of, singles, values_of};

use cl_values::{Kind, Val, Value, are_alike, one_spelling};

fn list_place(values: &[Value], item: &Val) -> Option<usize>
    requires { IsVal (ListV (items_of values.now)) }
    ensures { result ≡ place_of item.now values.now }
{
    for i in 0..values.len() {
        if are_alike(&values[i], item.value()) {
            return Some(i);
        }
    }
    None
}

fn listed_place(values: &[Value], item: &Val) -> Option<usize>
    requires { IsVal (ListV (items_of values.now)) }
    ensures { result ≡ place_of item.now (values_of (items_of values.now)) }
{
    list_place(values, item)
}

/// Whether a value is a buffer of this byte alone.
fn is_buff_of(item: &Val, byte: u8) -> bool
    ensures { result ≡ equal (BuffV (byte ∷ [])) item.now }
{
    one_spelling();
    match &item.value().kind {
        Kind::Buff(bytes) => bytes.len() == 1 && bytes[0] == byte,
        _ => false,
    }
}

fn is_text_of(item: &Val, byte: u8) -> bool
    requires { is_text_byte byte ≡ true }
    ensures { result ≡ equal (AsciiV (byte ∷ [])) item.now }
{
    one_spelling();
    match &item.value().kind {
        Kind::Ascii(bytes) => bytes.len() == 1 && bytes[0] == byte,
        _ => false,
    }
}

fn is_string_of(item: &Val, character: char) -> bool
    ensures { result ≡ equal (Utf8V (character ∷ [])) item.now }
{
    one_spelling();
    match &item.value().kind {
        Kind::Utf8(characters) => characters.len() == 1 && characters[0] == character,
        _ => false,
    }
}

fn buff_place(bytes: &[u8], item: &Val) -> Option<usize>
    ensures { result ≡ place_of item.now (singles BuffV bytes.now) }
{
    for i in 0..bytes.len() {
        if is_buff_of(item, bytes[i]) {
            return Some(i);
        }
    }
    None
}

fn text_place(bytes: &[u8], item: &Val) -> Option<usize>
    requires { list_all is_text_byte bytes.now ≡ true }
    ensures { result ≡ place_of item.now (singles AsciiV bytes.now) }
{
    for i in 0..bytes.len() {
        if is_text_of(item, bytes[i]) {
            return Some(i);
        }
    }
    None
}

fn string_place(characters: &[char], item: &Val) -> Option<usize>
    ensures { result ≡ place_of item.now (singles Utf8V characters.now) }
{
    for i in 0..characters.len() {
        if is_string_of(item, characters[i]) {
            return Some(i);
        }
    }
    None
}

/// The first place at which an entry equals the item, if there is one; None where the value is no sequence.
pub fn try_index_of(sequence: &Val, item: &Val) -> Option<Option<usize>>
    ensures { result ≡ option_map (place_of item.now) (entries_of sequence.now) }
{
    match &sequence.value().kind {
        Kind::List(values) => Some(listed_place(values, item)),
        Kind::Buff(bytes) => Some(buff_place(bytes, item)),
        Kind::Ascii(bytes) => Some(text_place(bytes, item)),
        Kind::Utf8(characters) => Some(string_place(characters, item)),
        _ => None,
    }
}
