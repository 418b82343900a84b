//! What the types of the code keep of entries. Each function here is a law of the values that it is
//! given, and does nothing.
ghost use Rattle.std.specs.List.{All};
ghost use Rattle.cl_values.specs.Valid.{IsPrincipal, IsVal};
ghost use Rattle.cl_node_sound.specs.Sound.{HasParts};

use crate::names::{person, principal_of};
use cl_c32::Principal;
use cl_tx::Entry;
use cl_values::Val;

fn is_valid(principal: &Principal)
    ensures { IsPrincipal principal.now }
{
    let _version = principal.address.version;
    if let Some(name) = &principal.contract {
        let _bytes = name.bytes();
    }
}

fn are_valid(args: &[Val])
    ensures { All IsVal args.now }
{
    for arg in args {
        let _tree = arg.value();
    }
}

/// Holders are within the limits.
pub fn are_holders(holders: &[(Principal, u128)])
    ensures { All (λ h. IsPrincipal h.0) holders.now }
{
    for holder in holders {
        is_valid(&holder.0);
    }
}

/// The principals, the values and the height of an entry are within the limits.
pub fn has_parts(entry: &Entry)
    ensures { HasParts entry.now }
{
    match entry {
        Entry::Deploy { common, name, .. } => is_valid(&principal_of(common, name)),
        Entry::Call {
            common,
            contract,
            args,
            ..
        } => {
            are_valid(args.as_slice());
            is_valid(contract);
            is_valid(&person(common));
        }
        Entry::Block { height } => {
            let _height = *height;
        }
    }
}
