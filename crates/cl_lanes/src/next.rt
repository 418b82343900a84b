//! The entries that are next.
ghost use Rattle.std.specs.Prelude.{◌≡◌, false, true, ◌+◌, ◌<◌, ◌≤◌, IfNone, IfSome, Some, length, slice_get};
ghost use Rattle.cl_file.specs.declared.entry.Entry.{Entry as AnEntry};
ghost use Rattle.cl_touch_sound.specs.Calls.{IsCall};

use cl_tx::{Entry, TxFile};

fn is_call(entry: &Entry) -> bool
    ensures yes { result ≡ true → IsCall entry.now }
    ensures no { result ≡ false → IsCall entry.now → ⊥ }
{
    match entry {
        Entry::Call { .. } => true,
        Entry::Deploy { .. } | Entry::Block { .. } => false,
    }
}

/// The entry at a place, if it is a call.
pub(crate) fn call_at(file: &TxFile, place: usize) -> Option<&Entry>
    ensures found { IfSome result (λ e. (slice_get file.now.entries place ≡ Some e.now)
        × IsCall e.now × (place < 100000)) }
    ensures none { IfNone result ((e : AnEntry) →
        slice_get file.now.entries place ≡ Some e → IsCall e → ⊥) }
{
    let entries = file.entries();
    if place >= entries.len() {
        return None;
    }
    let entry = &entries[place];
    if is_call(entry) { Some(entry) } else { None }
}

/// The entry at a place, if it is a deployment or a block.
pub(crate) fn other_at(file: &TxFile, place: usize) -> Option<&Entry>
    ensures found { IfSome result (λ e. (slice_get file.now.entries place ≡ Some e.now)
        × (IsCall e.now → ⊥) × (place < 100000)) }
    ensures none { IfNone result ((e : AnEntry) →
        slice_get file.now.entries place ≡ Some e → IsCall e) }
{
    let entries = file.entries();
    if place >= entries.len() {
        return None;
    }
    let entry = &entries[place];
    if is_call(entry) { None } else { Some(entry) }
}
