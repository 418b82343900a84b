// JSON texts (RFC 8259) as `serde_json` reads them, and the names in their objects.
#![tactic(auto)]

mod members;
mod text;

pub use members::{is_known, members_rise, unknown_is_least, unknown_member};
pub use text::{NotJson, parse};
