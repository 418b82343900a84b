//! What stands around an expression.
ghost use Rattle.std.specs.Prelude.{◌≡◌, option_copied};
ghost use Rattle.std.specs.List.{list_any};
ghost use Rattle.cl_rules.specs.Context.{same, named_in};

use cl_c32::Principal;
use cl_contracts::Deployed;
use cl_forms::Version;
use cl_keyed::HashKey;
use cl_types::{Access, Name, SizedTy};
use indexmap::{IndexMap, IndexSet};

/// A function as its callers see it. The height is that of its application.
pub struct Signature {
    pub access: Access,
    pub params: Vec<(Name, SizedTy)>,
    pub returns: SizedTy,
    pub height: u32,
}

impl Drop for Signature {
    fn drop(self) {
        let Signature {
            access: _,
            params,
            returns,
            height: _,
        } = self;
        drop(params);
        drop(returns);
    }
}

/// The contract that is checked, the version of its text, the deployed ones, and what the forms before define, each under its
/// name.
pub struct Context<'a> {
    pub principal: Principal,
    pub version: Version,
    pub deployed: &'a Deployed,
    pub constants: IndexMap<Name, SizedTy, HashKey>,
    pub variables: IndexMap<Name, SizedTy, HashKey>,
    pub maps: IndexMap<Name, (SizedTy, SizedTy), HashKey>,
    pub fungibles: IndexSet<Name, HashKey>,
    pub nonfungibles: IndexMap<Name, SizedTy, HashKey>,
    pub functions: IndexMap<Name, Signature, HashKey>,
}

impl<'a> Drop for Context<'a> {
    fn drop(self) {
        let Context {
            principal: _,
            version: _,
            deployed: _,
            constants,
            variables,
            maps,
            fungibles,
            nonfungibles,
            functions,
        } = self;
        drop(constants);
        drop(variables);
        drop(maps);
        drop(fungibles);
        drop(nonfungibles);
        drop(functions);
    }
}

impl<'a> Context<'a> {
    /// The key by which tables of names hash.
    pub fn hash_key(&self) -> HashKey {
        self.deployed.hash_key()
    }
}

// Most tables of a text are empty, so each look-up asks for that before it hashes the name.

/// The type under a name.
#[tactic(auto, using(cl_contracts::proofs::Places::under_name))]
pub(crate) fn type_under<'a>(
    types: &'a IndexMap<Name, SizedTy, HashKey>,
    name: &Name,
) -> Option<&'a SizedTy>
    ensures { option_copied result ≡ named_in name.now types.now.entries }
{
    if types.is_empty() {
        return None;
    }
    types.get(name)
}

/// The types of keys and values under a name.
#[tactic(auto, using(cl_contracts::proofs::Places::under_name))]
pub(crate) fn map_under<'a>(
    maps: &'a IndexMap<Name, (SizedTy, SizedTy), HashKey>,
    name: &Name,
) -> Option<&'a (SizedTy, SizedTy)>
    ensures { option_copied result ≡ named_in name.now maps.now.entries }
{
    if maps.is_empty() {
        return None;
    }
    maps.get(name)
}

/// Whether a name is one of these.
pub(crate) fn is_in(names: &IndexSet<Name, HashKey>, name: &Name) -> bool
    ensures { result ≡ list_any (same name.now) names.now.keys }
{
    if names.is_empty() {
        return false;
    }
    names.contains(name)
}

/// The function under a name.
#[tactic(auto, using(cl_contracts::proofs::Places::under_name))]
pub(crate) fn function_under<'a>(
    functions: &'a IndexMap<Name, Signature, HashKey>,
    name: &Name,
) -> Option<&'a Signature>
    ensures { option_copied result ≡ named_in name.now functions.now.entries }
{
    if functions.is_empty() {
        return None;
    }
    functions.get(name)
}
