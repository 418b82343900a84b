//! Costs, and a node before its entries.
ghost use Rattle.std.specs.Prelude.{◌≡◌, IfErr, IfOk};
ghost use Rattle.cl_exports.specs.Files.{IsTable};
ghost use Rattle.cl_exports.specs.Nodes.{HasNoTable, Opens, OpensFile, OpensNoFile, OpensNot};

use crate::files::{table, transactions};
use crate::outcome::Outcome;
use cl_costs::CostTable;
use cl_keyed::HashKey;
use cl_session::Session;
use cl_types::Fault;
use std::alloc::Global;

/// A table of costs on the heap.
fn boxed_table(alloc: Global, table: CostTable) -> Result<Box<CostTable>, Outcome>
    ensures same { IfOk result (λ b. b.value ≡ table) }
    ensures fails { IfErr result (λ outcome. outcome ≡ Outcome.NoMemory) }
{
    match Box::new(alloc, table) {
        Ok(table) => Ok(table),
        Err(_) => Err(Outcome::NoMemory),
    }
}

/// The table of a cost file, or the unit table where there are no bytes.
///
/// # Errors
///
/// `BadFile` where the file is too long or not in its format, and `NoMemory`.
#[tactic(auto, using(crate::proofs::Openings::bad_costs))]
pub fn read_costs(alloc: Global, bytes: &[u8]) -> Result<Box<CostTable>, Outcome>
    ensures reads { IfOk result (λ b. IsTable bytes.now b.value) }
    ensures fails { IfErr result (HasNoTable bytes.now) }
{
    match table(alloc, bytes) {
        Ok(table) => match boxed_table(alloc, table) {
            Ok(table) => Ok(table),
            Err(_) => Err(Outcome::NoMemory),
        },
        Err(Fault::Refused(_)) => Err(Outcome::BadFile),
        Err(Fault::NoMemory) => Err(Outcome::NoMemory),
    }
}

/// The session of a transaction file.
#[tactic(auto, using(crate::proofs::Openings::opens_file, crate::proofs::Openings::bad_file))]
fn open_file(
    alloc: Global,
    table: &CostTable,
    hash_key: HashKey,
    bytes: &[u8],
) -> Result<Box<Session>, Outcome>
    ensures opens { IfOk result (λ b. OpensFile table.now bytes.now b.value) }
    ensures fails { IfErr result (OpensNoFile bytes.now) }
{
    match transactions(alloc, bytes) {
        Ok(file) => {
            let session = Session::open(alloc, hash_key, table, &file);
            drop(file);
            match session {
                Ok(session) => Ok(session),
                Err(_) => Err(Outcome::NoMemory),
            }
        }
        Err(Fault::Refused(_)) => Err(Outcome::BadFile),
        Err(Fault::NoMemory) => Err(Outcome::NoMemory),
    }
}

/// The session under a table with the holders and epochs of a transaction file, whose entries aren't
/// done; without them where the file has no bytes. Its tables hash by the key that `key` gives: where
/// strangers make the entries it has to be of random bytes, at least 16.
///
/// # Errors
///
/// `BadFile` where the file is too long or not in its format, and `NoMemory`.
#[tactic(auto, using(crate::proofs::Openings::opens_empty, crate::proofs::Openings::opens_by_file, crate::proofs::Openings::no_room, crate::proofs::Openings::opens_not))]
pub fn open(
    alloc: Global,
    table: &CostTable,
    key: &[u8],
    file: &[u8],
) -> Result<Box<Session>, Outcome>
    ensures opens { IfOk result (λ b. Opens table.now file.now b.value) }
    ensures fails { IfErr result (OpensNot file.now) }
{
    let hash_key = HashKey::of(key);
    if file.is_empty() {
        match Session::open_empty(alloc, hash_key, table) {
            Ok(session) => Ok(session),
            Err(_) => Err(Outcome::NoMemory),
        }
    } else {
        match open_file(alloc, table, hash_key, file) {
            Ok(session) => Ok(session),
            Err(outcome) => Err(outcome),
        }
    }
}
