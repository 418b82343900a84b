//! Why a native gives no value.
use cl_arith::ArithRefusal;

/// Why a native gives no value.
#[derive(Clone, Copy)]
pub enum NoValue {
    /// Arithmetic has no result (A1 to A4).
    Arith(ArithRefusal),
    /// `unwrap-panic` or `unwrap-err-panic` finds nothing (A5).
    Panic,
    /// The native isn't defined at these arguments, or its value is beyond the limits of values.
    Undefined,
}
