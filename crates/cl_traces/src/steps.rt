//! The steps of `trace`, one for each entry.
ghost use Rattle.std.specs.Prelude.{◌≡◌, ◌<◌, ◌≤◌, IfOk, length, map};
ghost use Rattle.cl_file.specs.Entries.{height_after};
ghost use Rattle.cl_node_sound.specs.Sound.{HasParts};
ghost use Rattle.cl_audit.specs.Told.{claim_told};
ghost use Rattle.cl_entries.specs.Entries.{HasPartsAt, MayFollow};
ghost use Rattle.cl_traces.specs.Traces.{HasTrace, IsTraceStep, IsTraceStepAt, trace_step};

use crate::lines::trace_text;
use cl_audit::Trace;
use cl_costs::{CostTable, Schedule};
use cl_engine::{Node, nodes_are_known_in_one_way};
use cl_entries::{Step, first_node, schedule_of};
use cl_file::Row;
use cl_tx::{Entry, TxFile, heights_are_those_of_the_file};
use cl_types::NoMemory;
use std::alloc::Global;
use std::marker::Model;

/// The entries of a transaction file while their traces are written, one after another. Only the
/// trace of one entry is kept.
pub struct TraceSteps {
    file: TxFile,
    costs: Schedule,
    node: Node,
    done: usize,
}

impl Drop for TraceSteps {
    fn drop(self) {
        let TraceSteps {
            file,
            costs,
            node,
            done: _,
        } = self;
        drop(file);
        drop(costs);
        drop(node);
    }
}

impl Model for TraceSteps {
    ghost use Rattle.std.specs.Prelude.{ℕ, refl};
    ghost use Rattle.std.specs.Coded.{code_by, coded_ℕ, coded×};
    ghost use Rattle.cl_costs.specs.Schedules.{ScheduleSeen};
    ghost use Rattle.cl_costs.specs.contracts.schedule.Schedule as schedule;
    ghost use Rattle.cl_nodes.specs.Codes.{seen_code};
    ghost use Rattle.cl_nodes.specs.Seen.{Seen};
    ghost use Rattle.cl_file.specs.Files.{FileSeen};
    ghost use Rattle.cl_file.specs.contracts.tx_file.TxFile as tx_file;
    ghost use Rattle.cl_traces.specs.Traces.{Tracing};

    ghost Value = { Tracing };

    ghost coded = { code_by (FileSeen × (ScheduleSeen × (Seen × ℕ)))
        (coded× tx_file.the_row.coded (coded× schedule.the_row.coded (coded× seen_code coded_ℕ)))
        (λ s. (s.file, (s.schedule, (s.node, s.done))))
        (λ p. record {
          file = p.0;
          schedule = p.1.0;
          node = p.1.1.0;
          done = p.1.1.1;
        }) (λ _. refl) };

    ghost view = { λ s. record {
      file = s.file;
      schedule = s.costs;
      node = s.node;
      done = s.done;
    } };
}

/// Does what an entry asks for, and keeps its trace.
fn trace_entry(
    alloc: Global,
    node: &mut Node,
    costs: &Schedule,
    entry: &Entry,
) -> Result<Trace, NoMemory>
    requires { node.now.height ≤ height_after node.now.height entry.now }
    ensures parts { HasParts entry.now }
    ensures made { IfOk result (λ trace. HasTrace costs.now node.old entry.now
        (map claim_told trace.claims.items) node.new) }
{
    let mut trace = Trace::new(alloc);
    let given = node.step_watched(alloc, entry, costs, &mut trace)?;
    drop(given);
    Ok(trace)
}

/// The step of an entry with this number and trace.
fn step_of(alloc: Global, number: u32, trace: &Trace) -> Result<Step, NoMemory>
    ensures { IfOk result (λ step. step
        ≡ trace_step number (map claim_told trace.now.claims.items)) }
{
    let text = trace_text(alloc, number, trace)?;
    Ok(Step {
        events: Row::new(Vec::new(alloc)),
        bytes: Row::new(text),
    })
}

/// Does what the entry with this number asks for, and makes the step that writes its trace.
fn make_step(
    alloc: Global,
    node: &mut Node,
    costs: &Schedule,
    number: u32,
    entry: &Entry,
) -> Result<Step, NoMemory>
    requires { node.now.height ≤ height_after node.now.height entry.now }
    ensures parts { HasParts entry.now }
    ensures made { IfOk result
        (λ step. IsTraceStep costs.now node.old number entry.now step node.new) }
{
    let trace = trace_entry(alloc, node, costs, entry)?;
    step_of(alloc, number, &trace)
}

/// Makes the step of the entry of a file at a place.
fn make_at(
    alloc: Global,
    node: &mut Node,
    file: &TxFile,
    costs: &Schedule,
    at: usize,
) -> Result<Step, NoMemory>
    requires here { at < length file.now.entries }
    requires rises { MayFollow node.now.height file.now.entries at }
    ensures parts { HasPartsAt file.now.entries at }
    ensures made { IfOk result
        (λ step. IsTraceStepAt costs.now node.old file.now.entries at step node.new) }
{
    let entry = &file.entries()[at];
    make_step(alloc, node, costs, at as u32, entry)
}

impl TraceSteps {
    ghost use Rattle.std.specs.Prelude.{◌≡◌, ◌<◌, ◌≤◌, ◌++◌, ◌∷◌, [], List, IfOk, length, suc};
    ghost use Rattle.cl_shapes.specs.declared.function.CostFn.{CostFn};
    ghost use Rattle.cl_file.specs.Entries.{NeverFall};
    ghost use Rattle.cl_file.specs.Files.{FileSeen};
    ghost use Rattle.cl_entries.specs.declared.status.Step.{Step as AStep};
    ghost use Rattle.cl_traces.specs.Traces.{IsSomeTracing, IsTracing, left_of};

    /// Before the first step.
    pub fn new(alloc: Global, costs: &CostTable, file: TxFile) -> Result<TraceSteps, NoMemory>
        ensures { IfOk result (IsTracing costs.now file []) }
    {
        let node = first_node(alloc, &file)?;
        let costs = schedule_of(alloc, costs, &file)?;
        Ok(TraceSteps {
            file,
            costs,
            node,
            done: 0,
        })
    }

    /// How many steps are left.
    pub fn remaining(&self) -> usize
        ensures { result ≡ left_of self.now }
    {
        self.file.entries().len().saturating_sub(self.done)
    }

    /// The step of the next entry.
    fn next_entry(&mut self, alloc: Global) -> Result<Step, NoMemory>
        requires here { self.old.done < length self.old.file.entries }
        requires few { length self.old.file.entries ≤ 100000 }
        requires rising { NeverFall 0 self.old.file.entries }
        requires way { IsSomeTracing self.old }
        ensures next { IfOk result
            (λ step. (table : List CostFn) (file : FileSeen) (steps : List AStep) →
            IsTracing table file steps self.old →
            IsTracing table file (steps ++ step ∷ []) self.new) }
        ensures left { IfOk result (λ _. suc (left_of self.new) ≡ left_of self.old) }
    {
        nodes_are_known_in_one_way();
        heights_are_those_of_the_file();
        let step = make_at(alloc, &mut self.node, &self.file, &self.costs, self.done)?;
        self.done += 1;
        Ok(step)
    }

    /// The next step.
    pub fn next(&mut self, alloc: Global) -> Result<Step, NoMemory>
        requires way { IsSomeTracing self.old }
        requires left { 0 < left_of self.old }
        ensures next { IfOk result
            (λ step. (table : List CostFn) (file : FileSeen) (steps : List AStep) →
            IsTracing table file steps self.old →
            IsTracing table file (steps ++ step ∷ []) self.new) }
        ensures left { IfOk result (λ _. suc (left_of self.new) ≡ left_of self.old) }
    {
        let all = self.file.entries().len();
        prove!(self.done < all);
        self.next_entry(alloc)
    }
}
