//! A node between two entries, as the auditor keeps it.
ghost use Rattle.std.specs.Prelude.{◌≡◌, ◌<◌, ◌≤◌, ◌^◌, [], IfOk, OnErr};
ghost use Rattle.cl_events.specs.State.{genesis};
ghost use Rattle.cl_file.specs.Entries.{height_after};
ghost use Rattle.cl_file.specs.Files.{AreOnce, total};
ghost use Rattle.cl_node_sound.specs.Sound.{HasParts};
ghost use Rattle.cl_nodes.specs.Asked.{call_entry, deployment_entry};
ghost use Rattle.cl_nodes.specs.Steps.{Makes};
ghost use Rattle.cl_file.specs.declared.entry.Entry.TheVariants.{Block as ABlock};
ghost use Rattle.cl_audit.specs.Agrees.{IsAgreement};
ghost use Rattle.cl_audit_entries.specs.Agreeing.{AgreesWith};
ghost use Rattle.cl_audit_entries.specs.Seen.{IsFresh};

use crate::call::call;
use crate::deploy::deploy;
use crate::frame::{frame_of, scope_over};
use cl_audit::{Agreement, agreement_of};
use cl_audit_steps::ContractTable;
use cl_audit_walk::{Claim, Cursor, Run};
use cl_c32::Principal;
use cl_costs::Schedule;
use cl_keyed::HashKey;
use cl_node_sound::nodes_stay_sound;
use cl_nodes::{
    Asked, Contracts, Deployment, Invocation, Moment, are_holders, asked_by, block_begun, has_parts,
};
use cl_rules::forms_have_one_answer;
use cl_shapes::Meter;
use cl_state::World;
use cl_tx::{Entry, TxResult};
use cl_types::NoMemory;
use std::alloc::Global;
use std::marker::Model;

/// What the audit of an entry found.
#[derive(Drop)]
pub struct Audited {
    /// The entry's result.
    pub result: TxResult,
    /// Whether the claims are those of its trace.
    pub agreement: Agreement,
}

/// What the audit of an entry found that has the empty trace: there are no claims, or the first one
/// differs.
pub(crate) fn of_nothing(run: &Run, given: TxResult) -> Audited
    requires { IsFresh run.now.cursor }
    ensures given { result.result ≡ given }
    ensures agrees { IsAgreement [] run.now.cursor.claims.now result.agreement }
{
    Audited {
        result: given,
        agreement: agreement_of(&run.cursor),
    }
}

/// A node between two entries: its world, which has no layer above the base, the contracts that are
/// deployed, with the bounds of their functions and with their forms, and the height of the block.
/// Contracts see the state, the contracts by their forms, and the height.
pub struct AuditedNode<'a> {
    run: Run<'a>,
    contracts: Contracts,
    /// The forms of the deployed contracts, in the order of their deployments.
    texts: ContractTable,
    height: u64,
}

impl<'a> Drop for AuditedNode<'a> {
    fn drop(self) {
        let AuditedNode {
            run,
            contracts,
            texts,
            height: _,
        } = self;
        drop(run);
        drop(contracts);
        drop(texts);
    }
}

impl<'a> Model for AuditedNode<'a> {
    ghost use Rattle.std.specs.Prelude.{◌≡◌, []};
    ghost use Rattle.cl_audit_steps.specs.Seen.{contracts_seen};
    ghost use Rattle.cl_nodes.specs.Bounded.{IsWhole};
    ghost use Rattle.cl_nodes.specs.Codes.{seen_code};
    ghost use Rattle.cl_nodes.specs.Seen.{Seen, seen};
    ghost use Rattle.cl_nodes.specs.Sound.{IsSound};
    ghost use Rattle.cl_audit_entries.specs.Seen.{AreThose};

    ghost Value = { Seen };

    ghost coded = { seen_code };

    ghost view = { λ n. seen n.run.world.stack.top (contracts_seen n.texts.contracts) n.height };

    ghost invariant = { λ n. record {
      base : n.run.world.stack.below ≡ [];
      whole : IsWhole n.contracts;
      those : AreThose n.texts.contracts n.contracts.deployed;
      sound : IsSound n.contracts.deployed.contracts
          (seen n.run.world.stack.top (contracts_seen n.texts.contracts) n.height);
    } };
}

impl<'a> AuditedNode<'a> {
    /// The first node: the holders have their STX, no contract is deployed, the height is 0. Each
    /// holder is there once, and together they have at most 2^128-1. The tables hash by this key.
    pub fn genesis(
        alloc: Global,
        hash_key: HashKey,
        holders: Vec<(Principal, u128)>,
    ) -> Result<AuditedNode<'a>, NoMemory>
        requires once { AreOnce [] holders.items }
        requires total { total holders.items < 2 ^ 128 }
        ensures first { IfOk result
            (λ n. n ≡ record {
              state = genesis holders.items;
              contracts = [];
              height = 0;
            }) }
    {
        nodes_stay_sound();
        are_holders(holders.as_slice());
        let world = World::genesis_with_hash_key(hash_key, holders)?;
        Ok(AuditedNode {
            run: Run {
                world,
                meter: Meter::new([0; 5]),
                cursor: Cursor::new(&[]),
            },
            contracts: Contracts::new(alloc, hash_key),
            texts: ContractTable::new(alloc, hash_key),
            height: 0,
        })
    }

    fn deploy(
        &mut self,
        alloc: Global,
        deployment: &Deployment,
        costs: &Schedule,
        claims: &'a [Claim],
    ) -> Result<Audited, NoMemory>
        requires { HasParts (deployment_entry deployment.now) }
        ensures steps { IfOk result (λ a. Makes costs.now self.old
            (deployment_entry deployment.now) a.result self.new) }
        ensures agrees { IfOk result (λ a. AgreesWith costs.now self.old
            (deployment_entry deployment.now) a.result.outcome claims.now a.agreement) }
        ensures height { IfOk result (λ _. self.new.height ≡ self.old.height) }
        ensures refused { OnErr result (self.new ≡ self.old) }
    {
        nodes_stay_sound();
        forms_have_one_answer();
        let table = costs.at(self.height);
        self.contracts.reprice(alloc, table)?;
        self.run.cursor = Cursor::new(claims);
        let moment = Moment {
            height: self.height,
            costs: table,
        };
        deploy(
            alloc,
            &mut self.run,
            &mut self.contracts,
            &mut self.texts,
            &moment,
            deployment,
        )
    }

    fn call(
        &mut self,
        alloc: Global,
        invocation: &Invocation,
        costs: &Schedule,
        claims: &'a [Claim],
    ) -> Result<Audited, NoMemory>
        requires { HasParts (call_entry invocation.now) }
        ensures steps { IfOk result (λ a. Makes costs.now self.old
            (call_entry invocation.now) a.result self.new) }
        ensures agrees { IfOk result (λ a. AgreesWith costs.now self.old
            (call_entry invocation.now) a.result.outcome claims.now a.agreement) }
        ensures height { IfOk result (λ _. self.new.height ≡ self.old.height) }
        ensures refused { OnErr result (self.new ≡ self.old) }
    {
        nodes_stay_sound();
        forms_have_one_answer();
        let table = costs.at(self.height);
        self.contracts.reprice(alloc, table)?;
        self.run.cursor = Cursor::new(claims);
        let contracts = self.contracts.with_bounds();
        let frame = frame_of(invocation.common, invocation.contract, self.height);
        let scope = scope_over(alloc, &self.texts, &frame, table);
        call(&mut self.run, &scope, &contracts, invocation)
    }

    fn begin(
        &mut self,
        alloc: Global,
        height: u64,
        costs: &Schedule,
        claims: &'a [Claim],
    ) -> Result<Audited, NoMemory>
        requires { HasParts (ABlock height) }
        ensures steps { IfOk result
            (λ a. Makes costs.now self.old (ABlock height) a.result self.new) }
        ensures agrees { IfOk result (λ a. AgreesWith costs.now self.old (ABlock height)
            a.result.outcome claims.now a.agreement) }
        ensures height { IfOk result (λ _. self.new.height ≡ height) }
        ensures refused { OnErr result (self.new ≡ self.old) }
    {
        nodes_stay_sound();
        let lines = self
            .contracts
            .rebounds_at(alloc, costs, self.height, height)?;
        self.run.cursor = Cursor::new(claims);
        self.height = height;
        Ok(of_nothing(&self.run, block_begun(alloc, lines)))
    }

    /// Does what an entry asks for, under the costs that the schedule has at the node's height, as
    /// the rules define it, and compares the trace of its evaluation with the claims: a block and an
    /// entry that is refused have the empty trace. Want of memory leaves the node as it was.
    pub fn step(
        &mut self,
        alloc: Global,
        entry: &Entry,
        costs: &Schedule,
        claims: &'a [Claim],
    ) -> Result<Audited, NoMemory>
        requires rises { self.old.height ≤ height_after self.old.height entry.now }
        ensures steps { IfOk result (λ a. Makes costs.now self.old entry.now a.result self.new) }
        ensures agrees { IfOk result (λ a. AgreesWith costs.now self.old entry.now
            a.result.outcome claims.now a.agreement) }
        ensures height { IfOk result
            (λ _. self.new.height ≡ height_after self.old.height entry.now) }
        ensures refused { OnErr result (self.new ≡ self.old) }
        ensures parts { HasParts entry.now }
    {
        has_parts(entry);
        match asked_by(entry) {
            Asked::Deploy(deployment) => self.deploy(alloc, &deployment, costs, claims),
            Asked::Call(invocation) => self.call(alloc, &invocation, costs, claims),
            Asked::Block(height) => self.begin(alloc, height, costs, claims),
        }
    }
}
