ghost use Rattle.std.specs.Prelude.{◌≡◌, ℕ, List, [], MatchOption, IfSome, option_map, map};
ghost use Rattle.serde_json.specs.Data.{Members};
ghost use Rattle.serde_json.specs.View.{members_view};
ghost use Rattle.cl_json.specs.Json.{json_of, is_known, unknown_names, unknown_member};
ghost use Rattle.cl_json.specs.Order.{InOrder, Rising, IsLeast};

use serde_json::{Map, Value};

/// Whether a name is one of those known.
pub fn is_known(known: &[&str], name: &str) -> bool
    ensures { result ≡ is_known (map (λ k. k.now) known.now) name.now }
{
    for other in known {
        if name == *other {
            return true;
        }
    }
    false
}

/// The bytewise least name in an object that is none of those known.
pub fn unknown_member<'v>(known: &[&str], members: &'v Map<String, Value>) -> Option<&'v str>
    ensures { option_map (λ name. name.now) result
        ≡ unknown_member (map (λ k. k.now) known.now) (members_view members.now.entries) }
{
    for (name, _value) in members.iter() {
        if !is_known(known, name.as_str()) {
            return Some(name.as_str());
        }
    }
    None
}

/// In each object of a JSON text the names are read in rising bytewise order, each once.
pub fn members_rise()
    ensures { (bytes : List ℕ) → IfSome (json_of bytes) InOrder }
{}

/// In members whose names rise, the first unknown name is the bytewise least of them.
pub fn unknown_is_least()
    ensures { (known : List (List ℕ)) (members : Members) → Rising members →
        MatchOption (unknown_member known members) (unknown_names known members ≡ [])
        (λ name. IsLeast name (unknown_names known members)) }
{}
