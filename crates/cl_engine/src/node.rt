//! The node.
ghost use Rattle.std.specs.Prelude.{◌≡◌, ◌<◌, ◌≤◌, ◌^◌, [], IfOk, OnErr, OnOk};
ghost use Rattle.std.specs.List.{All};
ghost use Rattle.cl_c32.specs.declared.principal.Principal.{Principal as Who};
ghost use Rattle.cl_values.specs.Valid.{IsPrincipal};
ghost use Rattle.cl_tokens.specs.Ledger.{balance};
ghost use Rattle.cl_events.specs.State.{genesis, holder};
ghost use Rattle.cl_file.specs.Entries.{height_after};
ghost use Rattle.cl_file.specs.Files.{AreOnce, total};
ghost use Rattle.cl_file.specs.declared.entry.Entry.TheVariants.{Block as ABlock};
ghost use Rattle.cl_state.specs.Holders.{sum_for};
ghost use Rattle.cl_state.specs.Stack.{base_alone};
ghost use Rattle.cl_tables.specs.Spots.{grafted};
ghost use Rattle.cl_frames.specs.Watching.{Seen as Watched};
ghost use Rattle.cl_meaning.specs.Kept.{Kept, Whole};
ghost use Rattle.cl_contracts.specs.Seen.{deployed_seen};
ghost use Rattle.cl_tx.specs.Laws.{IsKept};
ghost use Rattle.cl_node_sound.specs.Sound.{HasParts};
ghost use Rattle.cl_nodes.specs.Asked.{call_entry, deployment_entry};
ghost use Rattle.cl_nodes.specs.Steps.{Makes};
ghost use Rattle.cl_engine.specs.Steps.{Gives, IsCall, MakesSafely};
ghost use Rattle.cl_engine.specs.Traces.{Sees};
ghost use Rattle.cl_engine.specs.Within.{IsChargedWithin, GivesTyped};

use crate::call::{call, try_call};
use crate::deploy::deploy;
use crate::trial::{Trial, try_on_copy};
use cl_c32::Principal;
use cl_code::{Silent, Watch};
use cl_contracts::Deployed;
use cl_costs::Schedule;
use cl_keyed::HashKey;
use cl_node_sound::{answers_have_their_types, costs_stay_within_bounds, nodes_stay_sound};
use cl_nodes::{
    Asked, Contracts, Deployment, Invocation, Moment, are_holders, asked_by, block_begun, has_parts,
};
use cl_rules::forms_have_one_answer;
use cl_state::{Spot, World};
use cl_touch::grafts_are_kept;
use cl_tx::{Entry, TxResult, failed_entries_change_nothing};
use cl_types::NoMemory;
use std::alloc::Global;
use std::marker::Model;

/// A node between two entries: its world, which has no layer above the base, the contracts that are
/// deployed, with the bounds of their functions, and the height of the block. Contracts see the
/// state, the contracts and the height.
pub struct Node {
    world: World,
    contracts: Contracts,
    height: u64,
}

impl Drop for Node {
    fn drop(self) {
        let Node {
            world,
            contracts,
            height: _,
        } = self;
        drop(world);
        drop(contracts);
    }
}

impl Model for Node {
    ghost use Rattle.std.specs.Prelude.{◌≡◌, []};
    ghost use Rattle.cl_contracts.specs.Seen.{deployed_seen};
    ghost use Rattle.cl_nodes.specs.Seen.{Seen, seen};
    ghost use Rattle.cl_nodes.specs.Bounded.{IsWhole};
    ghost use Rattle.cl_nodes.specs.Sound.{IsSound};
    ghost use Rattle.cl_nodes.specs.Codes.{seen_code};

    ghost Value = { Seen };

    ghost coded = { seen_code };

    ghost view = { λ n. seen n.world.stack.top (deployed_seen n.contracts.deployed) n.height };

    ghost invariant = { λ n. record {
      base : n.world.stack.below ≡ [];
      whole : IsWhole n.contracts;
      sound : IsSound n.contracts.deployed.contracts
          (seen n.world.stack.top (deployed_seen n.contracts.deployed) n.height);
    } };
}

impl Node {
    /// The first node: the holders have their STX, no contract is deployed, the height is 0. Each
    /// holder is there once, and together they have at most 2^128-1. Its tables hash by the key that
    /// everybody knows: for strangers' entries take `genesis_with_hash_key`.
    pub fn genesis(alloc: Global, holders: Vec<(Principal, u128)>) -> Result<Node, NoMemory>
        requires once { AreOnce [] holders.items }
        requires total { total holders.items < 2 ^ 128 }
        ensures first { IfOk result
            (λ n. n ≡ record {
              state = genesis holders.items;
              contracts = [];
              height = 0;
            }) }
        ensures supply { IfOk result (λ n. n.state.stx.supply ≡ total holders.items) }
        ensures principals { All (λ h. IsPrincipal h.0) holders.items }
        ensures balances { IfOk result
            (λ n. (who : Who) → balance (holder who) n.state.stx.balances
            ≡ sum_for who holders.items) }
    {
        Node::genesis_with_hash_key(alloc, HashKey::FIXED, holders)
    }

    /// The same, whose tables hash by this key. Nobody can choose entries that collide in them who
    /// doesn't know it; a random one is best.
    pub fn genesis_with_hash_key(
        alloc: Global,
        hash_key: HashKey,
        holders: Vec<(Principal, u128)>,
    ) -> Result<Node, NoMemory>
        requires once { AreOnce [] holders.items }
        requires total { total holders.items < 2 ^ 128 }
        ensures first { IfOk result
            (λ n. n ≡ record {
              state = genesis holders.items;
              contracts = [];
              height = 0;
            }) }
        ensures supply { IfOk result (λ n. n.state.stx.supply ≡ total holders.items) }
        ensures principals { All (λ h. IsPrincipal h.0) holders.items }
        ensures balances { IfOk result
            (λ n. (who : Who) → balance (holder who) n.state.stx.balances
            ≡ sum_for who holders.items) }
    {
        nodes_stay_sound();
        are_holders(holders.as_slice());
        let world = World::genesis_with_hash_key(hash_key, holders)?;
        Ok(Node {
            world,
            contracts: Contracts::new(alloc, hash_key),
            height: 0,
        })
    }

    /// What the contracts keep, and who has what: as the contracts say, each value of its type. No
    /// layer is above the base, which has no events and no moves.
    pub fn world(&self) -> &World
        ensures stack { result.now.stack ≡ base_alone self.now.state }
        ensures events { self.now.state.events ≡ [] }
        ensures moves { self.now.state.moves ≡ [] }
        ensures kept { Kept self.now.contracts Whole self.now.state }
    {
        &self.world
    }

    /// The deployed contracts.
    pub fn deployed(&self) -> &Deployed
        ensures { deployed_seen result.now ≡ self.now.contracts }
    {
        &self.contracts.deployed
    }

    /// The height of the block.
    pub fn height(&self) -> u64
        ensures { result ≡ self.now.height }
    {
        self.height
    }

    /// Begins a block. Where the number of the epoch changes its result has the bounds of all
    /// deployed functions under the costs of its height.
    fn begin(&mut self, alloc: Global, height: u64, costs: &Schedule) -> Result<TxResult, NoMemory>
        ensures made { IfOk result
            (λ r. MakesSafely costs.now self.old (ABlock height) r self.new) }
        ensures refused { OnErr result (self.new ≡ self.old) }
        ensures seen { (w : Watched) → Sees costs.now self.old (ABlock height) result w w }
    {
        nodes_stay_sound();
        let from = self.height;
        let lines = self.contracts.rebounds_at(alloc, costs, from, height)?;
        self.height = height;
        Ok(block_begun(alloc, lines))
    }

    fn deploy<W: Watch>(
        &mut self,
        alloc: Global,
        deployment: &Deployment,
        costs: &Schedule,
        watch: &mut W,
    ) -> Result<TxResult, NoMemory>
        requires { HasParts (deployment_entry deployment.now) }
        ensures made { IfOk result (λ r. MakesSafely costs.now self.old
            (deployment_entry deployment.now) r self.new) }
        ensures refused { OnErr result (self.new ≡ self.old) }
        ensures seen { Sees costs.now self.old (deployment_entry deployment.now) result
            (W.seen watch.old) (W.seen watch.new) }
    {
        nodes_stay_sound();
        costs_stay_within_bounds();
        answers_have_their_types();
        failed_entries_change_nothing();
        forms_have_one_answer();
        let table = costs.at(self.height);
        self.contracts.reprice(alloc, table)?;
        let moment = Moment {
            height: self.height,
            costs: table,
        };
        deploy(
            alloc,
            &mut self.world,
            &mut self.contracts,
            &moment,
            deployment,
            watch,
        )
    }

    fn call<W: Watch>(
        &mut self,
        alloc: Global,
        invocation: &Invocation,
        costs: &Schedule,
        watch: &mut W,
    ) -> Result<TxResult, NoMemory>
        requires { HasParts (call_entry invocation.now) }
        ensures made { IfOk result (λ r. MakesSafely costs.now self.old
            (call_entry invocation.now) r self.new) }
        ensures refused { OnErr result (self.new ≡ self.old) }
        ensures seen { Sees costs.now self.old (call_entry invocation.now) result
            (W.seen watch.old) (W.seen watch.new) }
    {
        nodes_stay_sound();
        costs_stay_within_bounds();
        answers_have_their_types();
        failed_entries_change_nothing();
        forms_have_one_answer();
        let table = costs.at(self.height);
        self.contracts.reprice(alloc, table)?;
        let moment = Moment {
            height: self.height,
            costs: table,
        };
        let contracts = self.contracts.with_bounds();
        call(
            alloc,
            &mut self.world,
            &contracts,
            &moment,
            invocation,
            watch,
        )
    }

    /// Does what an entry asks for.
    fn make<W: Watch>(
        &mut self,
        alloc: Global,
        entry: &Entry,
        costs: &Schedule,
        watch: &mut W,
    ) -> Result<TxResult, NoMemory>
        requires { HasParts entry.now }
        ensures made { IfOk result (λ r. MakesSafely costs.now self.old entry.now r self.new) }
        ensures refused { OnErr result (self.new ≡ self.old) }
        ensures seen { Sees costs.now self.old entry.now result
            (W.seen watch.old) (W.seen watch.new) }
    {
        match asked_by(entry) {
            Asked::Deploy(deployment) => self.deploy(alloc, &deployment, costs, watch),
            Asked::Call(invocation) => self.call(alloc, &invocation, costs, watch),
            Asked::Block(height) => self.begin(alloc, height, costs),
        }
    }

    /// Does what an entry asks for, under the costs that the schedule has at the node's height:
    /// begins a block, whose height is at least the node's, deploys a contract, or calls a function
    /// of a contract. A block at which the number of the epoch changes has the bounds of all
    /// deployed functions under the costs of its height. An err, an abort, a refusal and want of
    /// memory leave the node as it was.
    pub fn step(
        &mut self,
        alloc: Global,
        entry: &Entry,
        costs: &Schedule,
    ) -> Result<TxResult, NoMemory>
        requires rises { self.old.height ≤ height_after self.old.height entry.now }
        ensures steps { IfOk result (λ r. Makes costs.now self.old entry.now r self.new) }
        ensures undone { IfOk result (λ r. (IsKept r.outcome → ⊥) → self.new ≡ self.old) }
        ensures height { IfOk result
            (λ _. self.new.height ≡ height_after self.old.height entry.now) }
        ensures refused { OnErr result (self.new ≡ self.old) }

        // What the types keep of an entry.
        ensures parts { HasParts entry.now }

        // No entry is charged above its bound, and each answer is of its function's type.
        ensures charged { IfOk result (λ r. IsChargedWithin costs.now self.old entry.now r) }
        ensures typed { IfOk result (λ r. GivesTyped self.old entry.now r) }
    {
        let mut nobody = Silent;
        self.step_watched(alloc, entry, costs, &mut nobody)
    }

    /// Does what an entry asks for, as `step` does, and gives `watch` the value of each node of its
    /// evaluation that gives one, with its span, in the order in which they end: none of a block and
    /// of an entry that is refused; those of an err, of an abort and of an entry whose conditions
    /// fail, too. After want of memory these are the first of them.
    pub fn step_watched<W: Watch>(
        &mut self,
        alloc: Global,
        entry: &Entry,
        costs: &Schedule,
        watch: &mut W,
    ) -> Result<TxResult, NoMemory>
        requires rises { self.old.height ≤ height_after self.old.height entry.now }
        ensures steps { IfOk result (λ r. Makes costs.now self.old entry.now r self.new) }
        ensures undone { IfOk result (λ r. (IsKept r.outcome → ⊥) → self.new ≡ self.old) }
        ensures height { IfOk result
            (λ _. self.new.height ≡ height_after self.old.height entry.now) }
        ensures refused { OnErr result (self.new ≡ self.old) }
        ensures parts { HasParts entry.now }
        ensures charged { IfOk result (λ r. IsChargedWithin costs.now self.old entry.now r) }
        ensures typed { IfOk result (λ r. GivesTyped self.old entry.now r) }
        ensures seen { Sees costs.now self.old entry.now result
            (W.seen watch.old) (W.seen watch.new) }
    {
        has_parts(entry);
        self.make(alloc, entry, costs, watch)
    }

    /// The result that the step of a call has. What the call changes is undone, so that the node
    /// stays as it is. The time doesn't grow with the state.
    pub fn peek(
        &mut self,
        alloc: Global,
        entry: &Entry,
        costs: &Schedule,
    ) -> Result<TxResult, NoMemory>
        requires call { IsCall entry.now }
        ensures gives { IfOk result (λ r. Gives costs.now self.old entry.now r) }
        ensures same { self.new ≡ self.old }
    {
        forms_have_one_answer();
        nodes_stay_sound();
        has_parts(entry);
        let Asked::Call(invocation) = asked_by(entry) else {
            unreachable!();
        };
        let table = costs.at(self.height);
        self.contracts.reprice(alloc, table)?;
        let moment = Moment {
            height: self.height,
            costs: table,
        };
        let contracts = self.contracts.with_bounds();
        try_call(alloc, &mut self.world, &contracts, &moment, &invocation)
    }

    /// What a call makes of this node: its result, and the world after it. The node stays as it is.
    /// The time and the memory grow with the state, of which a copy is made.
    pub fn trial(&self, alloc: Global, entry: &Entry, costs: &Schedule) -> Result<Trial, NoMemory>
        requires call { IsCall entry.now }
        ensures makes { IfOk result (λ t. Makes costs.now self.now entry.now t.result
            (record self.now { state = t.world.stack.top })) }
        ensures base { IfOk result (λ t. t.world.stack.below ≡ []) }
        ensures kept { IfOk result (λ t. Kept self.now.contracts Whole t.world.stack.top) }
    {
        nodes_stay_sound();
        has_parts(entry);
        let Asked::Call(invocation) = asked_by(entry) else {
            unreachable!();
        };
        let moment = Moment {
            height: self.height,
            costs: costs.at(self.height),
        };
        let trial = try_on_copy(alloc, &self.world, &self.contracts, &moment, &invocation)?;
        Ok(trial)
    }

    /// Makes the state at some spots that of another world, which is as this node's contracts say.
    /// Elsewhere it stays as it is.
    pub fn graft(&mut self, from: &World, spots: &[Spot]) -> Result<(), NoMemory>
        requires kept { Kept self.old.contracts Whole from.now.stack.top }
        requires base { from.now.stack.below ≡ [] }
        ensures done { OnOk result (self.new ≡ record self.old {
          state = grafted spots.now from.now.stack.top self.old.state;
        }) }
        ensures refused { OnErr result (self.new ≡ self.old) }
    {
        grafts_are_kept();
        self.world.graft(from, spots)?;
        Ok(())
    }
}
