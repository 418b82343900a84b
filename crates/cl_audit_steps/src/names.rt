//! Bound names and keywords.
ghost use Rattle.std.specs.Prelude.{◌≡◌, ◌++◌, option_copied};
ghost use Rattle.std.specs.Option.{option_or};
ghost use Rattle.cl_forms.specs.Keywords.{keyword_of};
ghost use Rattle.cl_forms.specs.Names.{same};
ghost use Rattle.cl_meaning.specs.Deployed.{value_of};

use crate::named_values::NamedValues;
use cl_forms::Keyword;
use cl_types::Name;
use cl_values::Val;
use std::marker::Model;

/// Names that are bound to values: those of the scope outside, if there is one, and then its own.
#[derive(Drop)]
pub struct Names<'a> {
    outer: Option<&'a Names<'a>>,
    own: &'a NamedValues,
}

impl<'a> Model for Names<'a> {
    ghost use Rattle.cl_audit_steps.specs.Named.{Named, named, named_code};

    ghost Value = { Named };

    ghost coded = { named_code };

    ghost view = { λ n. named n.outer n.own.now };

    ghost size = { λ n. n.depth };
}

impl<'a> Names<'a> {
    /// The names of a scope with none outside.
    pub fn alone(own: &'a NamedValues) -> Names<'a>
        ensures { result.values ≡ own.now }
    {
        Names { outer: None, own }
    }

    /// The names of a scope within another.
    pub fn within(outer: &'a Names<'a>, own: &'a NamedValues) -> Names<'a>
        ensures { result.values ≡ outer.now.values ++ own.now }
    {
        Names {
            outer: Some(outer),
            own,
        }
    }

    /// The first value of a name.
    pub fn find(&self, name: &Name) -> Option<&Val>
        ensures { option_copied result ≡ value_of name.now self.now.values }
    {
        match self.outer {
            Some(outer) => or_among(outer.find(name), self.own, name),
            None => self.own.find(name),
        }
    }
}

/// What was found, or else the first value of a name among these.
fn or_among<'a>(found: Option<&'a Val>, own: &'a NamedValues, name: &Name) -> Option<&'a Val>
    ensures { option_copied result ≡
        option_or (option_copied found.entry) (value_of name.now own.now) }
{
    match found {
        Some(value) => Some(value),
        None => own.find(name),
    }
}

/// Whether a name is a word.
#[tactic(auto, using(crate::proofs::WordLengths::other_length))]
fn is(name: &Name, word: &str) -> bool
    ensures { result ≡ same name.now word.now }
{
    if name.bytes().len() != word.len() {
        return false;
    }
    name.bytes() == word.as_bytes()
}

/// The keyword of a name.
#[tactic(auto, using(cl_types::proofs::Lattice::keys_equal))]
pub(crate) fn keyword_of(name: &Name) -> Option<Keyword>
    ensures { result ≡ keyword_of name.now }
{
    if is(name, "true") {
        Some(Keyword::True)
    } else if is(name, "false") {
        Some(Keyword::False)
    } else if is(name, "none") {
        Some(Keyword::None)
    } else if is(name, "tx-sender") {
        Some(Keyword::TxSender)
    } else if is(name, "contract-caller") {
        Some(Keyword::ContractCaller)
    } else if is(name, "block-height") {
        Some(Keyword::BlockHeight)
    } else {
        None
    }
}
