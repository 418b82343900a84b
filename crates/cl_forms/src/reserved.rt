//! The names that no definition and no parameter may have.
ghost use Rattle.std.specs.Prelude.{◌≡◌, is_some};
ghost use Rattle.cl_forms.specs.Names.{is_one_of};
ghost use Rattle.cl_forms.specs.Heads.{is_reserved, native, words, left_out};

use crate::names::is_one_by_length;
use crate::natives::native;
use crate::version::Version;
use cl_types::Name;

// The keywords and the define words, in rows by how many bytes they have.
static OTHER_WORDS: [&[&str]; 26] = [
    &[],
    &[],
    &[],
    &[],
    &["true", "none"],
    &["false"],
    &[],
    &[],
    &[],
    &["tx-sender"],
    &["define-map"],
    &[],
    &["block-height"],
    &["define-public"],
    &["define-private"],
    &["contract-caller", "define-constant", "define-data-var"],
    &["define-read-only"],
    &[],
    &[],
    &[],
    &[],
    &["define-fungible-token"],
    &[],
    &[],
    &[],
    &["define-non-fungible-token"],
];

// The names that are left out, in rows by how many bytes they have.
static LEFT_OUT: [&[&str]; 19] = [
    &[],
    &[],
    &[],
    &[],
    &[],
    &[],
    &[],
    &["hash160"],
    &["at-block"],
    &["use-trait", "keccak256"],
    &["impl-trait"],
    &["contract-of"],
    &["define-trait"],
    &["principal-of?", "is-in-regtest"],
    &[],
    &["get-block-info?"],
    &["secp256k1-verify"],
    &["stx-liquid-supply"],
    &["secp256k1-recover?"],
];

// Whether a name is a native's of the version.
fn is_native(version: Version, name: &Name) -> bool
    ensures { result ≡ is_some (native version name.now) }
{
    native(name, version).is_some()
}

// Whether a name is a native's of the version, a keyword or a define word.
fn is_word(version: Version, name: &Name) -> bool
    ensures { result ≡ is_one_of (words version) name.now }
{
    is_native(version, name) || is_one_by_length(&OTHER_WORDS, name)
}

/// Whether a name is one of Clarity's that this engine leaves out.
pub(crate) fn is_left_out(name: &Name) -> bool
    ensures { result ≡ is_one_of left_out name.now }
{
    is_one_by_length(&LEFT_OUT, name)
}

/// Whether no definition, no parameter and no binding of a text of this version may have this name: it is a native's of the
/// version, a keyword, a define word, or one of those that are left out.
#[tactic(auto, unfolding(crate::specs::Heads::is_reserved))]
pub fn is_reserved(version: Version, name: &Name) -> bool
    ensures { result ≡ is_reserved version name.now }
{
    is_word(version, name) || is_left_out(name)
}
