//! Verdicts on natives on values.
ghost use Rattle.std.specs.Prelude.{◌≡◌, map, IfOk};
ghost use Rattle.cl_rules.specs.NativeTypes.{native_type};
ghost use Rattle.cl_typing.specs.Verdicts.{types_at, ConcludesRow};

use crate::concluding::{Checked, Concluded, conclude};
use crate::native_types::native_type;
use cl_sexpr::Rule;
use cl_types::{Fault, SizedTy};
use cl_values::Native;
use std::alloc::{AllocError, Global};

/// The types of the parts.
pub fn types_of<'a>(alloc: Global, parts: &'a [Checked]) -> Result<Vec<&'a SizedTy>, AllocError>
    ensures { IfOk result (λ v. map (λ t. t.now) v.items ≡ types_at parts.now) }
{
    let mut types = Vec::new(alloc);
    for part in parts {
        types.push(part.code.result())?;
    }
    Ok(types)
}

/// The verdict on a native on values.
pub fn on_values(alloc: Global, native: Native, parts: &[Checked]) -> Result<Concluded, Fault<Rule>>
    ensures { ConcludesRow (native_type native) 0 parts.now result }
{
    let types = types_of(alloc, parts)?;
    let ruled = native_type(alloc, native, &types);
    conclude(alloc, ruled, &None, 0, parts)
}
