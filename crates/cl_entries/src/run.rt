//! The steps of a transaction file: one for each entry, and one for the state after them.
ghost use Rattle.std.specs.Prelude.{◌≡◌, ◌<◌, [], IfOk, length};
ghost use Rattle.std.specs.List.{All};
ghost use Rattle.cl_values.specs.Valid.{IsPrincipal};
ghost use Rattle.cl_lines.specs.StateLines.{IsStateText};
ghost use Rattle.cl_tx.specs.Step.{schedule_of};
ghost use Rattle.cl_entries.specs.Entries.{HasPartsAt, IsFirst, IsStepAt, MayFollow};

use crate::entries::make_step;
use crate::status::Step;
use cl_costs::{CostTable, Schedule};
use cl_engine::{Node, nodes_are_known_in_one_way};
use cl_file::Row;
use cl_keyed::HashKey;
use cl_lines::{AddressCache, state_lines};
use cl_tx::{TxFile, heights_are_those_of_the_file};
use cl_types::NoMemory;
use std::alloc::Global;
use std::marker::Model;

/// The entries of a transaction file while their steps are done, one after another. The report
/// isn't kept.
pub struct EntrySteps {
    file: TxFile,
    costs: Schedule,
    state: bool,
    node: Node,
    addresses: AddressCache,
    done: usize,
}

impl Drop for EntrySteps {
    fn drop(self) {
        let EntrySteps {
            file,
            costs,
            state: _,
            node,
            addresses,
            done: _,
        } = self;
        drop(file);
        drop(costs);
        drop(node);
        drop(addresses);
    }
}

impl Model for EntrySteps {
    ghost use Rattle.std.specs.Prelude.{Bool, ℕ, refl};
    ghost use Rattle.std.specs.Coded.{code_by, coded_bool, coded_ℕ, coded×};
    ghost use Rattle.cl_costs.specs.Schedules.{ScheduleSeen};
    ghost use Rattle.cl_costs.specs.contracts.schedule.Schedule as schedule;
    ghost use Rattle.cl_nodes.specs.Codes.{seen_code};
    ghost use Rattle.cl_nodes.specs.Seen.{Seen};
    ghost use Rattle.cl_entries.specs.Entries.{Progress};
    ghost use Rattle.cl_file.specs.Files.{FileSeen};
    ghost use Rattle.cl_file.specs.contracts.tx_file.TxFile as tx_file;

    ghost Value = { Progress };

    ghost coded = { code_by (FileSeen × (ScheduleSeen × (Bool × (Seen × ℕ))))
        (coded× tx_file.the_row.coded (coded× schedule.the_row.coded
        (coded× coded_bool (coded× seen_code coded_ℕ))))
        (λ s. (s.file, (s.schedule, (s.state, (s.node, s.done)))))
        (λ p. record {
          file = p.0;
          schedule = p.1.0;
          state = p.1.1.0;
          node = p.1.1.1.0;
          done = p.1.1.1.1;
        }) (λ _. refl) };

    ghost view = { λ s. record {
      file = s.file;
      schedule = s.costs;
      state = s.state;
      node = s.node;
      done = s.done;
    } };
}

/// The schedule of a table and the epochs of a file.
pub fn schedule_of(alloc: Global, costs: &CostTable, file: &TxFile) -> Result<Schedule, NoMemory>
    ensures { IfOk result (λ schedule. schedule ≡ schedule_of costs.now file.now) }
{
    let epochs = Vec::from_slice(alloc, file.epochs())?;
    Ok(Schedule::new(*costs, epochs))
}

/// The node before the entries of a file. Its tables hash by the file's key.
pub fn first_node(alloc: Global, file: &TxFile) -> Result<Node, NoMemory>
    ensures first { IfOk result (λ n. IsFirst file.now.genesis n) }
    ensures holders { IfOk result (λ _. All (λ h. IsPrincipal h.0) file.now.genesis) }
{
    first_node_with_hash_key(alloc, file.hash_key(), file)
}

/// The same, whose tables hash by this key.
pub fn first_node_with_hash_key(
    alloc: Global,
    hash_key: HashKey,
    file: &TxFile,
) -> Result<Node, NoMemory>
    ensures first { IfOk result (λ n. IsFirst file.now.genesis n) }
    ensures holders { IfOk result (λ _. All (λ h. IsPrincipal h.0) file.now.genesis) }
{
    let holders = file.genesis(alloc)?;
    Node::genesis_with_hash_key(alloc, hash_key, holders)
}

/// Makes the step of the entry of a file at a place.
fn make_at(
    alloc: Global,
    addresses: &mut AddressCache,
    node: &mut Node,
    file: &TxFile,
    costs: &Schedule,
    at: usize,
) -> Result<Step, NoMemory>
    requires here { at < length file.now.entries }
    requires rises { MayFollow node.now.height file.now.entries at }
    ensures parts { HasPartsAt file.now.entries at }
    ensures made { IfOk result
        (λ step. IsStepAt costs.now node.old file.now.entries at step node.new) }
{
    let entry = &file.entries()[at];
    make_step(alloc, addresses, node, costs, at as u32, entry)
}

/// The lines of a node's state, and no event.
fn state_step(alloc: Global, node: &Node) -> Result<Step, NoMemory>
    ensures events { IfOk result (λ step. step.events ≡ []) }
    ensures text { IfOk result (λ step. IsStateText node.now.state step.bytes) }
{
    let text = state_lines(alloc, node.world())?;
    Ok(Step {
        events: Row::new(Vec::new(alloc)),
        bytes: Row::new(text),
    })
}

impl EntrySteps {
    ghost use Rattle.std.specs.Prelude.{◌≡◌, ◌<◌, ◌≤◌, ◌++◌, ◌∷◌, [], Bool, List, IfOk, length, suc};
    ghost use Rattle.cl_shapes.specs.declared.function.CostFn.{CostFn};
    ghost use Rattle.cl_file.specs.Entries.{NeverFall};
    ghost use Rattle.cl_file.specs.Files.{FileSeen};
    ghost use Rattle.cl_entries.specs.declared.status.Step.{Step as AStep};
    ghost use Rattle.cl_entries.specs.Entries.{IsOnTheWay, IsRunning, left_of};

    /// Before the first step. The state has a step where it is asked for.
    pub fn new(
        alloc: Global,
        costs: &CostTable,
        file: TxFile,
        state: bool,
    ) -> Result<EntrySteps, NoMemory>
        ensures { IfOk result (IsRunning costs.now file state []) }
    {
        let node = first_node(alloc, &file)?;
        let costs = schedule_of(alloc, costs, &file)?;
        let addresses = AddressCache::new(alloc)?;
        Ok(EntrySteps {
            file,
            costs,
            state,
            node,
            addresses,
            done: 0,
        })
    }

    /// How many steps are left.
    pub fn remaining(&self) -> usize
        ensures { result ≡ left_of self.now }
    {
        let all = self.file.entries().len() + usize::from(self.state);
        all.saturating_sub(self.done)
    }

    /// The step of the next entry.
    fn next_entry(&mut self, alloc: Global) -> Result<Step, NoMemory>
        requires here { self.old.done < length self.old.file.entries }
        requires few { length self.old.file.entries ≤ 100000 }
        requires rising { NeverFall 0 self.old.file.entries }
        requires way { IsOnTheWay self.old }
        ensures next { IfOk result (λ step.
            (table : List CostFn) (file : FileSeen) (state : Bool) (steps : List AStep) →
            IsRunning table file state steps self.old →
            IsRunning table file state (steps ++ step ∷ []) self.new) }
        ensures left { IfOk result (λ _. suc (left_of self.new) ≡ left_of self.old) }
    {
        nodes_are_known_in_one_way();
        heights_are_those_of_the_file();
        let step = make_at(
            alloc,
            &mut self.addresses,
            &mut self.node,
            &self.file,
            &self.costs,
            self.done,
        )?;
        self.done += 1;
        Ok(step)
    }

    /// The step of the state.
    fn next_state(&mut self, alloc: Global) -> Result<Step, NoMemory>
        requires behind { length self.old.file.entries ≤ self.old.done }
        requires few { length self.old.file.entries ≤ 100000 }
        requires left { 0 < left_of self.old }
        ensures next { IfOk result (λ step.
            (table : List CostFn) (file : FileSeen) (state : Bool) (steps : List AStep) →
            IsRunning table file state steps self.old →
            IsRunning table file state (steps ++ step ∷ []) self.new) }
        ensures left { IfOk result (λ _. suc (left_of self.new) ≡ left_of self.old) }
    {
        let step = state_step(alloc, &self.node)?;
        self.done += 1;
        Ok(step)
    }

    /// The next step.
    pub fn next(&mut self, alloc: Global) -> Result<Step, NoMemory>
        requires way { IsOnTheWay self.old }
        requires left { 0 < left_of self.old }
        ensures next { IfOk result (λ step.
            (table : List CostFn) (file : FileSeen) (state : Bool) (steps : List AStep) →
            IsRunning table file state steps self.old →
            IsRunning table file state (steps ++ step ∷ []) self.new) }
        ensures left { IfOk result (λ _. suc (left_of self.new) ≡ left_of self.old) }
    {
        if self.done < self.file.entries().len() {
            self.next_entry(alloc)
        } else {
            self.next_state(alloc)
        }
    }
}
