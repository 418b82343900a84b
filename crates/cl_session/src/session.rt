//! A node between two calls.
ghost use Rattle.std.specs.Prelude.{◌≡◌, ◌<◌, ◌≤◌, ◌++◌, ◌∷◌, [], length, IfOk, OnErr, OnOk};
ghost use Rattle.cl_costs.specs.Schedules.{always};
ghost use Rattle.cl_file.specs.Entries.{height_after, NeverFall};
ghost use Rattle.cl_tx.specs.Step.{schedule_of};
ghost use Rattle.cl_report.specs.Lines.{lines_of};
ghost use Rattle.cl_lines.specs.StateLines.{IsStateText};
ghost use Rattle.cl_engine.specs.Steps.{IsCall};
ghost use Rattle.cl_session.specs.Sessions.{IsCleared, IsOpened, IsSame, MadeOrSame, Peeked, Ran, RanPart, Stepped};

use cl_c32::Principal;
use cl_costs::{CostTable, Schedule};
use cl_engine::Node;
use cl_entries::{first_node_with_hash_key, schedule_of};
use cl_keyed::HashKey;
use cl_lines::{AddressCache, state_lines};
use cl_report::{lines, lines_with};
use cl_tx::{Entry, TxFile, TxResult};
use cl_types::NoMemory;
use std::alloc::Global;

/// A node between two calls, with the schedule of its costs; and what the last call left: the text,
/// and how many entries it did.
pub struct Session {
    pub node: Node,
    pub costs: Schedule,
    /// The texts of addresses. They take memory from the first entry on, if there is any.
    pub addresses: Option<AddressCache>,
    pub text: Vec<u8>,
    /// What the last check left, in numbers.
    pub numbers: Vec<u64>,
    pub done: u32,
}

impl Drop for Session {
    fn drop(self) {
        let Session {
            node,
            costs,
            addresses,
            text,
            numbers,
            done: _,
        } = self;
        drop(node);
        drop(costs);
        drop(addresses);
        drop(text);
        drop(numbers);
    }
}

/// The lines of an entry with its result.
fn lines_of(
    alloc: Global,
    addresses: &mut Option<AddressCache>,
    number: u32,
    entry: &Entry,
    given: &TxResult,
) -> Result<Vec<u8>, NoMemory>
    ensures { IfOk result (λ text. text.items ≡ lines_of number entry.now given.now) }
{
    if addresses.is_none() {
        *addresses = AddressCache::new(alloc).ok();
    }
    match addresses {
        Some(addresses) => lines_with(alloc, addresses, number, entry, given),
        None => lines(alloc, number, entry, given),
    }
}

/// Adds the lines of an entry with its result.
fn add_lines(
    out: &mut Vec<u8>,
    alloc: Global,
    addresses: &mut Option<AddressCache>,
    number: u32,
    entry: &Entry,
    given: &TxResult,
) -> Result<(), NoMemory>
    ensures added { OnOk result
        (out.new.items ≡ out.old.items ++ lines_of number entry.now given.now) }
    ensures same { OnErr result (out.new.items ≡ out.old.items) }
{
    let lines = lines_of(alloc, addresses, number, entry, given)?;
    out.extend_from_slice(&lines)?;
    Ok(())
}

/// Nobody holds STX.
fn no_holders(alloc: Global) -> Vec<(Principal, u128)>
    ensures { result.items ≡ [] }
{
    Vec::new(alloc)
}

/// A session of a node under these costs, on the heap.
fn boxed(alloc: Global, node: Node, costs: Schedule) -> Result<Box<Session>, NoMemory>
    ensures node { IfOk result (λ b. b.value.node ≡ node) }
    ensures costs { IfOk result (λ b. b.value.costs ≡ costs) }
    ensures text { IfOk result (λ b. b.value.text.items ≡ []) }
    ensures done { IfOk result (λ b. b.value.done ≡ 0) }
{
    let session = Session {
        node,
        costs,
        addresses: None,
        text: Vec::new(alloc),
        numbers: Vec::new(alloc),
        done: 0,
    };
    match Box::new(alloc, session) {
        Ok(session) => Ok(session),
        Err(failed) => Err(NoMemory::from(failed)),
    }
}

impl Session {
    /// Before the entries of a file: its holders have their STX, no contract is deployed, the height
    /// is 0. The costs are those of a table and of the file's epochs. Tables of the node hash by this
    /// key: a random one, where strangers make the entries.
    pub fn open(
        alloc: Global,
        hash_key: HashKey,
        table: &CostTable,
        file: &TxFile,
    ) -> Result<Box<Session>, NoMemory>
        ensures { IfOk result
            (λ b. IsOpened file.now.genesis (schedule_of table.now file.now) b.value) }
    {
        let costs = schedule_of(alloc, table, file)?;
        match first_node_with_hash_key(alloc, hash_key, file) {
            Ok(node) => boxed(alloc, node, costs),
            Err(_) => Err(NoMemory),
        }
    }

    /// The same without holders and epochs.
    pub fn open_empty(
        alloc: Global,
        hash_key: HashKey,
        table: &CostTable,
    ) -> Result<Box<Session>, NoMemory>
        ensures { IfOk result (λ b. IsOpened [] (always table.now) b.value) }
    {
        match Node::genesis_with_hash_key(alloc, hash_key, no_holders(alloc)) {
            Ok(node) => boxed(alloc, node, Schedule::always(alloc, *table)),
            Err(_) => Err(NoMemory),
        }
    }

    /// Forgets what the last call left.
    pub fn clear(&mut self)
        ensures { IsCleared self.old self.new }
    {
        self.text.clear();
        self.numbers.clear();
        self.done = 0;
    }

    /// Does what the next entry asks for, and adds its lines to the text.
    fn step(&mut self, alloc: Global, entry: &Entry) -> Result<(), NoMemory>
        requires rises { self.old.node.height ≤ height_after self.old.node.height entry.now }
        requires few { self.old.done < 100000 }
        ensures made { OnOk result (Stepped entry.now self.old self.new) }
        ensures failed { OnErr result (MadeOrSame entry.now self.old self.new) }
    {
        let given = self.node.step(alloc, entry, &self.costs)?;
        let number = self.done;
        self.done += 1;
        add_lines(
            &mut self.text,
            alloc,
            &mut self.addresses,
            number,
            entry,
            &given,
        )
    }

    /// Does these entries, one after another, and has their lines as the text, numbered from 0.
    ///
    /// # Errors
    ///
    /// After `NoMemory` the first entries are done, as many as `done`, and the text is a first part
    /// of their lines.
    pub fn run(&mut self, alloc: Global, entries: &[Entry]) -> Result<(), NoMemory>
        requires few { length entries.now ≤ 100000 }
        requires rising { NeverFall self.old.node.height entries.now }
        ensures ran { OnOk result (Ran entries.now self.old self.new) }
        ensures part { OnErr result (RanPart entries.now self.old self.new) }
    {
        self.clear();
        for entry in entries {
            self.step(alloc, entry)?;
        }
        Ok(())
    }

    /// Does a call, and has its lines as the text, with the number 0.
    ///
    /// # Errors
    ///
    /// After `NoMemory` the call is done or not, as `done` says, and there is no text.
    pub fn call(&mut self, alloc: Global, entry: &Entry) -> Result<(), NoMemory>
        requires { IsCall entry.now }
        ensures ran { OnOk result (Ran (entry.now ∷ []) self.old self.new) }
        ensures part { OnErr result (RanPart (entry.now ∷ []) self.old self.new) }
    {
        self.clear();
        self.step(alloc, entry)
    }

    /// Has the lines that a call would have as the text, and changes nothing else.
    pub fn peek(&mut self, alloc: Global, entry: &Entry) -> Result<(), NoMemory>
        requires { IsCall entry.now }
        ensures gives { OnOk result (Peeked entry.now self.old self.new) }
        ensures same { IsSame self.old self.new }
    {
        self.clear();
        let given = self.node.peek(alloc, entry, &self.costs)?;
        add_lines(&mut self.text, alloc, &mut self.addresses, 0, entry, &given)
    }

    /// Has the lines of the state as the text.
    pub fn show_state(&mut self, alloc: Global) -> Result<(), NoMemory>
        ensures shown { OnOk result (IsStateText self.old.node.state self.new.text.items) }
        ensures same { IsSame self.old self.new }
    {
        self.text = state_lines(alloc, self.node.world())?;
        Ok(())
    }
}
