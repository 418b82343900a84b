//! Words that are numbers.
ghost use Rattle.std.specs.Prelude.{◌≡◌, ◌≤◌, IfSome};
ghost use Rattle.cl_words.specs.Numbers.{number_within};

use cl_sexpr::{are_digits, value_of};

/// The number that a word of decimal digits spells, where it is at most this. There may be leading
/// zeros.
pub fn number_within(word: &str, most: u64) -> Option<u64>
    ensures number { result ≡ number_within word.now most }
    ensures within { IfSome result (λ n. n ≤ most) }
{
    let digits = word.as_bytes();
    if !are_digits(digits) {
        return None;
    }
    let number = value_of(digits)?;
    if number > u128::from(most) {
        return None;
    }
    Some(number as u64)
}
