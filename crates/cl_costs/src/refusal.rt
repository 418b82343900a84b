use cl_types::{Name, Text};

/// The first fault of a cost file.
#[derive(Drop)]
pub enum CostRefusal {
    /// The bytes are no JSON text, or no object.
    NotJson,
    /// A cost name isn't there.
    Missing { name: Name },
    /// A cost name's value is no object, or has no shape at a dimension, or has a dimension that is unknown.
    BadShape { name: Name, dimension: Text },
    /// A cost name has a coefficient from 2^32 to 2^64-1.
    TooBig { name: Name },
    /// A name is no cost name.
    Unknown { name: Text },
}
