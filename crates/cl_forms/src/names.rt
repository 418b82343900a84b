//! Names compared with words.
ghost use Rattle.std.specs.Prelude.{◌≡◌, map, length};
ghost use Rattle.cl_forms.specs.Names.{same, is_one_of};
ghost use Rattle.cl_forms.specs.Rows.{row_at};

use cl_types::Name;

/// Whether a name is a word.
pub(crate) fn is(name: &Name, word: &str) -> bool
    ensures { result ≡ same name.now word.now }
{
    name.bytes() == word.as_bytes()
}

/// Whether a name is one of these words.
pub fn is_one_of(words: &[&str], name: &Name) -> bool
    ensures { result ≡ is_one_of (map (λ word. word.now) words.now) name.now }
{
    for word in words {
        if is(name, word) {
            return true;
        }
    }
    false
}

/// Whether a name is one of the words in the row for its length: so it is compared with few of them.
#[tactic(auto, unfolding(crate::specs::Rows::row_at))]
pub(crate) fn is_one_by_length(rows: &[&[&str]], name: &Name) -> bool
    ensures { result ≡ is_one_of (row_at rows.now (λ row. map (λ word. word.now) row.now) (length name.now)) name.now }
{
    match rows.get(name.bytes().len()) {
        Some(words) => is_one_of(words, name),
        None => false,
    }
}
