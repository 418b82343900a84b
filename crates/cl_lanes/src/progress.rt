//! The progress of lanes through the entries of a file.
ghost use Rattle.std.specs.Prelude.{◌≡◌, [], ◌<◌, ◌≤◌, ◌^◌, IfOk, List, None, OnErr, OnOk, length, replicate};
ghost use Rattle.cl_costs.specs.Schedules.{ScheduleSeen};
ghost use Rattle.cl_file.specs.declared.entry.Entry.{Entry as AnEntry};
ghost use Rattle.cl_file.specs.Files.{AreOnce, total};
ghost use Rattle.cl_lanes.specs.Lanes.{first_progress};
ghost use Rattle.cl_lanes.specs.declared.moves.Move.TheVariants.{Barrier, Commit, Run};
ghost use Rattle.cl_lanes.specs.Progress.{HasCounts, MakesMove, Rises, first_seen};

use crate::committing::commit_trial;
use crate::held::{Held, try_call};
use crate::moves::Move;
use crate::next::{call_at, other_at};
use crate::ready::{Ready, judge};
use crate::spare::{append, put};
use cl_c32::Principal;
use cl_costs::Schedule;
use cl_engine::{Node, nodes_are_known_in_one_way};
use cl_file::Row;
use cl_keyed::HashKey;
use cl_spots::Spot;
use cl_tx::{TxFile, TxResult};
use cl_types::NoMemory;
use std::alloc::Global;
use std::marker::Model;

/// A node, and the results of the first entries of a file, which were committed on it; for each of
/// them the spots that it wrote, none for a deployment or a block; what each lane holds; how often
/// a trial was thrown away; and how often a move did nothing.
pub struct Progress {
    node: Node,
    results: Vec<TxResult>,
    wrote: Vec<Option<Row<Spot>>>,
    held: Vec<Option<Held>>,
    redone: u32,
    skipped: u32,
}

impl Drop for Progress {
    fn drop(self) {
        let Progress {
            node,
            results,
            wrote,
            held,
            redone: _,
            skipped: _,
        } = self;
        drop(node);
        drop(results);
        drop(wrote);
        drop(held);
    }
}

impl Model for Progress {
    ghost use Rattle.std.specs.Prelude.{length};
    ghost use Rattle.cl_nodes.specs.Seen.{Seen};
    ghost use Rattle.cl_lanes.specs.Held.{AreLanes, lanes_seen};
    ghost use Rattle.cl_lanes.specs.Lanes.{ProgressOf};
    ghost use Rattle.cl_lanes.specs.Progress.{progress_code};

    ghost Value = { ProgressOf Seen };

    ghost coded = { progress_code };

    ghost view = { λ p. record {
      node = p.node;
      results = p.results.items;
      wrote = p.wrote.items;
      held = lanes_seen p.held.items;
      redone = p.redone;
      skipped = p.skipped;
    } };

    ghost invariant = { λ p. AreLanes p.node (length p.results.items) p.wrote.items p.held.items };
}

/// Lanes that hold nothing.
fn empty_lanes(alloc: Global, lanes: u32) -> Result<Vec<Option<Held>>, NoMemory>
    ensures { IfOk result (λ held. held.items ≡ replicate lanes None) }
{
    let mut held = Vec::new(alloc);
    for lane in 0..lanes {
        held.push(None)?;
    }
    Ok(held)
}

impl Progress {
    ghost use Rattle.cl_lanes.specs.Held.{lanes_seen};

    /// The node of the genesis, no entry committed, and empty lanes. Each holder stands once, and
    /// together they have at most 2^128-1; there are 1 to 16 lanes. The tables hash by the key that
    /// everybody knows.
    pub fn new(
        alloc: Global,
        holders: Vec<(Principal, u128)>,
        lanes: u32,
    ) -> Result<Progress, NoMemory>
        requires once { AreOnce [] holders.items }
        requires total { total holders.items < 2 ^ 128 }
        requires some { 1 ≤ lanes }
        requires few { lanes ≤ 16 }
        ensures { IfOk result (λ p. p ≡ first_progress (first_seen holders.items) lanes) }
    {
        Progress::with_hash_key(alloc, HashKey::FIXED, holders, lanes)
    }

    /// The same, with tables that hash by this key.
    pub fn with_hash_key(
        alloc: Global,
        hash_key: HashKey,
        holders: Vec<(Principal, u128)>,
        lanes: u32,
    ) -> Result<Progress, NoMemory>
        requires once { AreOnce [] holders.items }
        requires total { total holders.items < 2 ^ 128 }
        requires some { 1 ≤ lanes }
        requires few { lanes ≤ 16 }
        ensures { IfOk result (λ p. p ≡ first_progress (first_seen holders.items) lanes) }
    {
        let held = empty_lanes(alloc, lanes)?;
        let node = Node::genesis_with_hash_key(alloc, hash_key, holders)?;
        Ok(Progress {
            node,
            results: Vec::new(alloc),
            wrote: Vec::new(alloc),
            held,
            redone: 0,
            skipped: 0,
        })
    }

    /// The node after the entries that were committed.
    pub fn node(&self) -> &Node
        ensures { result.now ≡ self.now.node }
    {
        &self.node
    }

    /// The results of the entries that were committed, in the order of the file.
    pub fn results(&self) -> &[TxResult]
        ensures value { result.now ≡ self.now.results }
        ensures few { length result.now ≤ 100000 }
    {
        self.results.as_slice()
    }

    /// For each committed entry the spots that it wrote, none for a deployment or a block.
    pub fn wrote(&self) -> &[Option<Row<Spot>>]
        ensures { result.now ≡ self.now.wrote }
    {
        self.wrote.as_slice()
    }

    /// What each lane holds.
    pub fn held(&self) -> &[Option<Held>]
        ensures { lanes_seen result.now ≡ self.now.held }
    {
        self.held.as_slice()
    }

    /// How often a trial was thrown away.
    pub fn redone(&self) -> u32
        ensures { result ≡ self.now.redone }
    {
        self.redone
    }

    /// How often a move did nothing.
    pub fn skipped(&self) -> u32
        ensures { result ≡ self.now.skipped }
    {
        self.skipped
    }

    /// The lane tries the call so many entries after the next one, on the present node,
    /// in place of what it held. Where there is no such lane or no such call, the move is skipped.
    pub fn run(
        &mut self,
        file: &TxFile,
        costs: &Schedule,
        lane: u32,
        ahead: u32,
    ) -> Result<(), NoMemory>
        requires { HasCounts self.old }
        ensures moved { OnOk result
            (MakesMove costs.now file.now.entries self.old (Run lane ahead) self.new) }
        ensures refused { OnErr result (self.new ≡ self.old) }
    {
        nodes_are_known_in_one_way();
        let alloc = *self.results.allocator();
        let lane = lane as usize;
        let start = self.results.len();
        let place = start + ahead as usize;
        let Some(entry) = call_at(file, place) else {
            self.skipped += 1;
            return Ok(());
        };
        if lane >= self.held.len() {
            self.skipped += 1;
            return Ok(());
        }
        let held = try_call(alloc, &self.node, entry, costs, place as u32, start as u32)?;
        put(&mut self.held, lane, Some(held));
        Ok(())
    }

    /// Commits the trial that the lane holds, where it is that of the next entry and may be
    /// committed; else it is thrown away. A lane that isn't there, is empty or holds a later entry
    /// stays as it is, and the move is skipped.
    pub fn commit(&mut self, lane: u32) -> Result<(), NoMemory>
        requires { HasCounts self.old }
        ensures moved { OnOk result ((costs : ScheduleSeen) (entries : List AnEntry) →
            MakesMove costs entries self.old (Commit lane) self.new) }
        ensures refused { OnErr result (self.new ≡ self.old) }
    {
        let alloc = *self.results.allocator();
        let lane = lane as usize;
        let hash_key = self.node.deployed().hash_key();
        match judge(
            alloc,
            hash_key,
            self.held.as_slice(),
            self.wrote.as_slice(),
            lane,
        )? {
            Ready::Idle => self.skipped += 1,
            Ready::Past => {
                put(&mut self.held, lane, None);
                self.skipped += 1;
            }
            Ready::Stale => {
                put(&mut self.held, lane, None);
                self.redone += 1;
            }
            Ready::Good => commit_trial(
                &mut self.node,
                &mut self.results,
                &mut self.wrote,
                &mut self.held,
                lane,
            )?,
        }
        Ok(())
    }

    /// Steps the next entry, where it is a deployment or a block; else the move is skipped.
    pub fn barrier(&mut self, file: &TxFile, costs: &Schedule) -> Result<(), NoMemory>
        requires counts { HasCounts self.old }
        requires rises { Rises file.now.entries self.old }
        ensures moved { OnOk result
            (MakesMove costs.now file.now.entries self.old Barrier self.new) }
        ensures refused { OnErr result (self.new ≡ self.old) }
    {
        nodes_are_known_in_one_way();
        let alloc = *self.results.allocator();
        let Some(entry) = other_at(file, self.results.len()) else {
            self.skipped += 1;
            return Ok(());
        };
        self.results.reserve(1)?;
        self.wrote.reserve(1)?;
        let result = self.node.step(alloc, entry, costs)?;
        append(&mut self.results, result);
        append(&mut self.wrote, None);
        Ok(())
    }
}
