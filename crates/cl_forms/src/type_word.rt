//! The words that types begin with.
ghost use Rattle.std.specs.Prelude.{◌≡◌};
ghost use Rattle.cl_forms.specs.WrittenTypes.{type_word};

use crate::names::is;
use cl_types::Name;

/// The word that a type in brackets begins with.
#[derive(Clone, Copy)]
pub(crate) enum TypeWord {
    Buff,
    Ascii,
    Utf8,
    List,
    Optional,
    Response,
    Tuple,
}

pub(crate) fn type_word(name: &Name) -> Option<TypeWord>
    ensures { result ≡ type_word name.now }
{
    if is(name, "buff") {
        Some(TypeWord::Buff)
    } else if is(name, "string-ascii") {
        Some(TypeWord::Ascii)
    } else if is(name, "string-utf8") {
        Some(TypeWord::Utf8)
    } else if is(name, "list") {
        Some(TypeWord::List)
    } else if is(name, "optional") {
        Some(TypeWord::Optional)
    } else if is(name, "response") {
        Some(TypeWord::Response)
    } else if is(name, "tuple") {
        Some(TypeWord::Tuple)
    } else {
        None
    }
}
