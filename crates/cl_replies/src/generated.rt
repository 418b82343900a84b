//! The reply to `gen`: a workload is run entry by entry, and none of its entries and results is
//! kept.
ghost use Rattle.std.specs.Prelude.{◌≡◌, ◌<◌, ◌+◌, ◌^◌, ℕ, [], codes, IfOk, string_bytes};
ghost use Rattle.cl_costs.specs.Schedules.{always};
ghost use Rattle.cl_costs.specs.Tables.{unit_table};
ghost use Rattle.cl_meaning.specs.Samples.{of_P0};
ghost use Rattle.cl_workload.specs.Summary.{counts_of, coins, supply_of, balance_of, IsSummary};
ghost use Rattle.cl_entries.specs.Entries.{IsFirst};
ghost use Rattle.cl_replies.specs.Kept.{IsCounted};
ghost use Rattle.cl_replies.specs.Reports.{IsGenerated};

use crate::call::unit_schedule;
use cl_costs::Schedule;
use cl_engine::{Node, nodes_are_known_in_one_way};
use cl_entries::{Reply, Status, text_reply};
use cl_events::Asset;
use cl_state::World;
use cl_tables::Place;
use cl_types::{Name, NoMemory};
use cl_workload::{Draws, Tally, deployment, receiver, summary, token, workloads_are_small};
use std::alloc::Global;

/// Runs the deployment.
fn deploy(
    alloc: Global,
    node: &mut Node,
    costs: &Schedule,
    tally: &mut Tally,
) -> Result<(), NoMemory>
    requires costs { costs.now ≡ always unit_table }
    requires first { IsFirst [] node.now }
    requires none { tally.now ≡ counts_of [] }
    ensures { IfOk result (λ _. (seed : ℕ) → IsCounted seed 0 tally.new seed node.new) }
{
    nodes_are_known_in_one_way();
    workloads_are_small();
    let entry = deployment(alloc)?;
    let given = node.step(alloc, &entry, costs)?;
    tally.add(&given);
    Ok(())
}

/// Runs the next call.
fn run_call(
    alloc: Global,
    node: &mut Node,
    costs: &Schedule,
    draws: &mut Draws,
    tally: &mut Tally,
) -> Result<(), NoMemory>
    requires { costs.now ≡ always unit_table }
    ensures { IfOk result (λ _. (seed n : ℕ) → n + 1 < 2 ^ 32 →
        IsCounted seed n tally.old draws.old node.old →
        IsCounted seed (n + 1) tally.new draws.new node.new) }
{
    nodes_are_known_in_one_way();
    workloads_are_small();
    let entry = draws.next_call(alloc)?;
    let given = node.step(alloc, &entry, costs)?;
    tally.add(&given);
    Ok(())
}

fn coin() -> Place
    ensures { result ≡ record { contract = of_P0 (codes "token"); name = codes "coin" } }
{
    Place {
        contract: token(),
        name: Name::make(b"coin").unwrap(),
    }
}

fn supply(world: &World) -> u128
    ensures { result ≡ supply_of (coins world.now.stack.top) }
{
    let at = coin();
    if world.has_ft(&at) {
        world.supply(&at)
    } else {
        0
    }
}

fn balance(world: &World) -> Result<u128, NoMemory>
    ensures { IfOk result (λ amount. amount ≡ balance_of (coins world.now.stack.top)) }
{
    let at = coin();
    world.balance(&Asset::Ft(at.contract, at.name), &receiver())
}

/// Runs a workload on a first node, and counts.
fn run_workload(alloc: Global, node: &mut Node, seed: u64, count: u32) -> Result<Tally, NoMemory>
    requires { IsFirst [] node.now }
    ensures { IfOk result (λ tally. (number : ℕ) × IsCounted seed count tally number node.new) }
{
    let costs = unit_schedule(alloc);
    let mut tally = Tally::new();
    deploy(alloc, node, &costs, &mut tally)?;
    let mut draws = Draws::new(seed);
    for _ in 0..count {
        run_call(alloc, node, &costs, &mut draws, &mut tally)?;
    }
    Ok(tally)
}

/// The line of a workload that is run on a first node.
fn workload_line(alloc: Global, node: &mut Node, seed: u64, count: u32) -> Result<String, NoMemory>
    requires { IsFirst [] node.now }
    ensures { IfOk result (λ line. IsSummary seed count (string_bytes line)) }
{
    let tally = run_workload(alloc, node, seed, count)?;
    let world = node.world();
    let held = balance(world)?;
    Ok(summary(alloc, count, &tally, supply(world), held)?)
}

/// The reply to `gen` for a seed and a number of calls.
pub fn gen_reply(alloc: Global, seed: u64, count: u32) -> Result<Reply, NoMemory>
    ensures { IfOk result (IsGenerated seed count) }
{
    let mut node = Node::genesis(alloc, Vec::new(alloc))?;
    let line = workload_line(alloc, &mut node, seed, count);
    drop(node);
    Ok(text_reply(line?, Status::Done))
}
