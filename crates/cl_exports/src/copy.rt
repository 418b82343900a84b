//! Bytes that are handed out.
ghost use Rattle.std.specs.Prelude.{◌≡◌, ◌≤◌, ◌⊎◌, length, min, take};
ghost use Rattle.cl_exports.specs.Copies.{IsCut};

/// Copies as many items as there is room for, and says how many that are.
pub fn copy_out<T: Copy>(from: &[T], to: &mut [T]) -> usize
    ensures many { result ≡ min (length from.now) (length to.old) }
    ensures within { result ≤ length to.new }
    ensures copied { take result to.new ≡ take result from.now }
{
    let count = from.len().min(to.len());
    to[..count].copy_from_slice(&from[..count]);
    count
}

/// Copies bytes into `to`, and how many there are into `needed`; gives 0, or 4 where there isn't room
/// for all of them.
#[tactic(auto, using(crate::proofs::Copies::whole_of, crate::proofs::Copies::cut_of))]
pub fn fill(from: &[u8], to: &mut [u8], needed: &mut usize) -> u32
    ensures number { (result ≡ 0) ⊎ (result ≡ 4) }
    ensures needed { needed.new ≡ length from.now }
    ensures within { result ≡ 0 → needed.new ≤ length to.new }
    ensures whole { result ≡ 0 → take needed.new to.new ≡ from.now }
    ensures cut { result ≡ 4 → IsCut from.now to.new needed.new }
{
    let count = copy_out(from, to);
    *needed = from.len();
    if count < from.len() { 4 } else { 0 }
}
