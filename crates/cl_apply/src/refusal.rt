//! Why a native that is defined at its arguments gives no value.
use cl_arith::ArithRefusal;

/// Why a native that is defined at its arguments gives no value.
#[derive(Clone, Copy)]
pub enum ApplyRefusal {
    /// Arithmetic has no result (A1 to A4).
    Arith(ArithRefusal),
    /// `unwrap-panic` or `unwrap-err-panic` finds nothing (A5).
    Panic,
}
