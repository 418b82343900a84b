use std::alloc::{AllocError, AllocFailed};
use thiserror::Error;

/// Why a case can't be run.
#[derive(Clone, Copy, Debug, PartialEq, Eq, Error)]
pub(crate) enum BadCase {
    #[error("the member `{0}` is missing, or not of its form")]
    Member(&'static str),
    #[error("it has a member of another name")]
    Unknown,
    #[error("a file that it names can't be read")]
    File,
    #[error("out of memory")]
    NoMemory,
}

impl From<AllocError> for BadCase {
    fn from(_: AllocError) -> BadCase {
        BadCase::NoMemory
    }
}

impl<T: Drop> From<AllocFailed<T>> for BadCase {
    fn from(_: AllocFailed<T>) -> BadCase {
        BadCase::NoMemory
    }
}
