//! Why a walk gives no value.
use cl_arith::ArithRefusal;
use cl_shapes::Over;
use cl_types::NoMemory;
use cl_values::Val;
use std::alloc::{AllocError, AllocFailed};

/// Why an evaluation aborts.
#[derive(Clone, Copy)]
pub enum Why {
    /// A1 to A4: arithmetic has no result.
    Arithmetic(ArithRefusal),
    /// A5: a panic.
    Panic,
    /// A6: a supply above its cap.
    Supply,
}

/// Why a walk gives no value.
#[derive(Drop)]
pub enum Stop {
    /// A value is thrown, which is the function's early return.
    Thrown(Val),
    /// A1 to A6: it aborts.
    Aborted(Why),
    /// A8: a charge that would pass the limit. It isn't spent.
    CostLimit(Over),
    /// An expression that isn't well typed, or that goes too deep.
    Stuck,
    /// Want of memory.
    NoMemory,
}

impl From<AllocError> for Stop {
    ghost use Rattle.std.specs.Prelude.{◌≡◌};
    ghost use Rattle.cl_walks.specs.declared.stop.Stop.TheVariants.{NoMemory};

    ghost from_gives = { λ _ stop. stop ≡ NoMemory };

    fn from(_error: AllocError) -> Stop {
        Stop::NoMemory
    }
}

impl<T: Drop> From<AllocFailed<T>> for Stop {
    ghost use Rattle.std.specs.Prelude.{◌≡◌};
    ghost use Rattle.cl_walks.specs.declared.stop.Stop.TheVariants.{NoMemory};

    ghost from_gives = { λ _ stop. stop ≡ NoMemory };

    fn from(_error: AllocFailed<T>) -> Stop {
        Stop::NoMemory
    }
}

impl From<NoMemory> for Stop {
    ghost use Rattle.std.specs.Prelude.{◌≡◌};
    ghost use Rattle.cl_walks.specs.declared.stop.Stop.TheVariants.{NoMemory as OutOfMemory};

    ghost from_gives = { λ _ stop. stop ≡ OutOfMemory };

    fn from(_error: NoMemory) -> Stop {
        Stop::NoMemory
    }
}
