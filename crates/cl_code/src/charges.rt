//! What natives on values are charged as.
ghost use Rattle.std.specs.Prelude.{◌≡◌};
ghost use Rattle.cl_forms.specs.Heads.{row_of};
ghost use Rattle.cl_forms.specs.declared.head.Head.TheVariants.{OnValues};

use cl_forms::{Head, cost_of};
use cl_shapes::CostName;
use cl_values::Native;

/// What a native on values is charged as.
pub fn native_cost(native: Native) -> CostName
    ensures { result ≡ (row_of (OnValues native)).cost }
{
    cost_of(Head::OnValues(native))
}
