//! What becomes of a lane that is to be committed.
ghost use Rattle.std.specs.Prelude.{◌≡◌, IfOk, OnOk, false, true, length};
ghost use Rattle.cl_footprint.specs.Gathering.{and_spot};
ghost use Rattle.cl_lanes.specs.Lanes.{Spares};
ghost use Rattle.cl_lanes.specs.Ready.{IsReady, SparesOne, StartWithin, is_among};
ghost use Rattle.cl_lanes.specs.Same.{AreSame};

use crate::held::Held;
use cl_file::Row;
use cl_keyed::HashKey;
use cl_spots::Spot;
use cl_types::NoMemory;
use indexmap::IndexSet;
use std::alloc::Global;

/// What becomes of a lane that is to be committed.
#[derive(Clone, Copy)]
pub(crate) enum Ready {
    /// It isn't there, is empty or holds an entry that isn't next.
    Idle,
    /// It holds an entry that was committed.
    Past,
    /// It holds the next entry, whose trial may not be committed.
    Stale,
    /// It holds the next entry, whose trial may be committed.
    Good,
}

/// Whether none of these spots is in a set.
fn spares_one(touched: &IndexSet<Spot, HashKey>, wrote: &[Spot]) -> bool
    ensures yes { result ≡ true → SparesOne touched.now.keys wrote.now }
    ensures no { result ≡ false → SparesOne touched.now.keys wrote.now → ⊥ }
{
    for spot in wrote {
        if is_among(touched, spot) {
            return false;
        }
    }
    true
}

/// Whether each of these entries was a call that wrote none of the spots in a set.
fn spares(touched: &IndexSet<Spot, HashKey>, wrote: &[Option<Row<Spot>>]) -> bool
    ensures yes { result ≡ true → Spares touched.now.keys wrote.now }
    ensures no { result ≡ false → Spares touched.now.keys wrote.now → ⊥ }
{
    for entry in wrote {
        match entry {
            None => return false,
            Some(spots) => {
                if !spares_one(touched, spots.as_slice()) {
                    return false;
                }
            }
        }
    }
    true
}

/// Whether a spot is in a set.
fn is_among(spots: &IndexSet<Spot, HashKey>, spot: &Spot) -> bool
    ensures { result ≡ is_among spots.now.keys spot.now }
{
    // The set's proof needs the types inside a spot to be named in this function.
    if let Spot::Variable(at) = spot {
        let _contract = at.contract.contract;
    }
    spots.contains(spot)
}

/// Adds a spot to a set.
fn add(spots: &mut IndexSet<Spot, HashKey>, spot: &Spot) -> Result<(), NoMemory>
    ensures { OnOk result (spots.new.keys ≡ and_spot spots.old.keys spot.now) }
{
    // As in `is_among`.
    if let Spot::Variable(at) = spot {
        let _contract = at.contract.contract;
    }
    spots.insert(*spot)?;
    Ok(())
}

/// These spots as a set.
fn set_of(
    alloc: Global,
    hash_key: HashKey,
    spots: &[Spot],
) -> Result<IndexSet<Spot, HashKey>, NoMemory>
    ensures { IfOk result (λ set. AreSame set.keys spots.now) }
{
    let mut set = IndexSet::with_hasher(alloc, hash_key);
    for spot in spots {
        add(&mut set, spot)?;
    }
    Ok(set)
}

/// Whether a trial may be committed: each of these entries, which were committed since it began,
/// was a call that wrote none of the spots that it touched. The time is linear in these spots.
fn is_good(
    alloc: Global,
    hash_key: HashKey,
    held: &Held,
    wrote: &[Option<Row<Spot>>],
) -> Result<bool, NoMemory>
    ensures yes { IfOk result (λ good. good ≡ true → Spares held.now.footprint.touched wrote.now) }
    ensures no { IfOk result (λ good. good ≡ false →
        Spares held.now.footprint.touched wrote.now → ⊥) }
{
    let touched = set_of(alloc, hash_key, held.footprint.touched.as_slice())?;
    Ok(spares(&touched, wrote))
}

/// What becomes of a lane that is to be committed, where these entries were committed.
pub(crate) fn judge(
    alloc: Global,
    hash_key: HashKey,
    held: &[Option<Held>],
    wrote: &[Option<Row<Spot>>],
    lane: usize,
) -> Result<Ready, NoMemory>
    requires { StartWithin held.now (length wrote.now) }
    ensures { IfOk result (λ ready. IsReady ready held.now wrote.now lane) }
{
    if lane >= held.len() {
        return Ok(Ready::Idle);
    }
    let Some(run) = &held[lane] else {
        return Ok(Ready::Idle);
    };
    let place = run.entry as usize;
    if wrote.len() < place {
        return Ok(Ready::Idle);
    }
    if place < wrote.len() {
        return Ok(Ready::Past);
    }
    let good = is_good(alloc, hash_key, run, &wrote[run.start as usize..])?;
    Ok(if good { Ready::Good } else { Ready::Stale })
}
