//! The parts of checked contracts.
use cl_c32::Principal;
use cl_code::Definition;
use cl_forms::Version;
use cl_keyed::HashKey;
use cl_types::Name;
use indexmap::IndexMap;

/// The parts of a contract: its definitions with typed trees, in the order of its text.
pub struct Parts {
    pub principal: Principal,
    /// The version of its text.
    pub version: Version,
    pub definitions: Vec<Definition>,
    /// The places of the definitions in the order of evaluation.
    pub order: Vec<usize>,
    /// The place of each name that is defined.
    pub places: IndexMap<Name, usize, HashKey>,
    /// The length of its text, in bytes.
    pub source_length: u32,
}

impl Drop for Parts {
    fn drop(self) {
        let Parts {
            principal: _,
            version: _,
            definitions,
            order,
            places,
            source_length: _,
        } = self;
        drop(definitions);
        drop(order);
        drop(places);
    }
}

impl Parts {
    /// The key by which the tables of the contract's names hash.
    pub fn hash_key(&self) -> HashKey {
        *self.places.hasher()
    }
}
