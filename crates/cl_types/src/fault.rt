//! The ways in which a call fails.
use std::alloc::{AllocError, AllocFailed};

/// Memory ran out. It may come at any call that takes memory, and is merged with no other answer.
#[derive(Clone, Copy, Debug)]
pub struct NoMemory;

/// Why a call that takes memory gives no value: it refuses, with the refusal `R`, or memory ran out.
#[derive(Drop)]
pub enum Fault<R> {
    Refused(R),
    NoMemory,
}

impl<R> From<AllocError> for Fault<R> {
    ghost use Rattle.std.specs.Prelude.{◌≡◌};
    ghost use Rattle.cl_types.specs.declared.fault.Fault.TheVariants.{NoMemory};

    ghost from_gives = { λ _ e. e ≡ NoMemory };

    fn from(_error: AllocError) -> Self {
        Fault::NoMemory
    }
}

impl<R, T: Drop> From<AllocFailed<T>> for Fault<R> {
    ghost use Rattle.std.specs.Prelude.{◌≡◌};
    ghost use Rattle.cl_types.specs.declared.fault.Fault.TheVariants.{NoMemory};

    ghost from_gives = { λ _ e. e ≡ NoMemory };

    fn from(_error: AllocFailed<T>) -> Self {
        Fault::NoMemory
    }
}

impl<R> From<NoMemory> for Fault<R> {
    ghost use Rattle.std.specs.Prelude.{◌≡◌};
    ghost use Rattle.cl_types.specs.declared.fault.Fault.TheVariants.{NoMemory as OutOfMemory};

    ghost from_gives = { λ _ e. e ≡ OutOfMemory };

    fn from(_error: NoMemory) -> Self {
        Fault::NoMemory
    }
}

impl From<AllocError> for NoMemory {
    fn from(_error: AllocError) -> Self {
        NoMemory
    }
}

impl<T: Drop> From<AllocFailed<T>> for NoMemory {
    fn from(_error: AllocFailed<T>) -> Self {
        NoMemory
    }
}
