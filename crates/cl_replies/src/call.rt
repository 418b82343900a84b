//! The reply to `call` for a source: it is deployed, and then one of its functions is called.
ghost use Rattle.std.specs.Prelude.{◌≡◌, ◌∷◌, [], codes, IfOk};
ghost use Rattle.cl_costs.specs.Schedules.{always};
ghost use Rattle.cl_costs.specs.Tables.{unit_table};
ghost use Rattle.cl_forms.specs.Texts.{text_of};
ghost use Rattle.cl_file.specs.Entries.{NeverFall};
ghost use Rattle.cl_entries.specs.Entries.{IsFirst};
ghost use Rattle.cl_replies.specs.Reports.{sent_from_home, deployment, call, call_status, status_of, lines_by, IsReportOf, IsCalled};
ghost use Rattle.cl_replies.specs.Kept.{AreBoth};

use cl_c32::{Address, ContractName, Principal};
use cl_costs::{CostTable, Schedule};
use cl_engine::{Node, nodes_are_known_in_one_way};
use cl_entries::{End, Ended, Reply, Status, bytes_reply, concat_bytes, end_entry, runs_are_sound};
use cl_forms::Version;
use cl_keyed::HashKey;
use cl_post::Mode;
use cl_tx::{Common, Conditions, Entry, Row, heights_are_those_of_the_file};
use cl_types::NoMemory;
use cl_values::Val;
use std::alloc::{AllocError, Global};

/// The name of the contract.
fn main_name() -> ContractName
    ensures { result ≡ codes "main" }
{
    ContractName::make(b"main").unwrap()
}

/// What is sent by the address SP000000000000000000002Q6VF78, with no stated limit and no
/// condition.
fn sent_from_home(alloc: Global) -> Common
    ensures { result ≡ sent_from_home }
{
    Common {
        sender: Address::new(22, &[0; 20]),
        limit: [u64::MAX; 5],
        mode: Mode::Allow,
        conditions: Conditions::none(alloc),
    }
}

/// The deployment of a source of this version.
fn deployment(alloc: Global, source: Row<u8>, version: Version) -> Entry
    ensures { result ≡ deployment (text_of source version) }
{
    Entry::Deploy {
        common: sent_from_home(alloc),
        name: main_name(),
        source,
        version,
    }
}

/// The call of a function of the contract.
fn call(alloc: Global, function: Vec<u8>, args: Row<Val>) -> Entry
    ensures { result ≡ call function.items args }
{
    let common = sent_from_home(alloc);
    let contract = Principal {
        address: common.sender,
        contract: Some(main_name()),
    };
    Entry::Call {
        common,
        contract,
        function: Row::new(function),
        args,
    }
}

/// The unit table, at all heights.
pub(crate) fn unit_schedule(alloc: Global) -> Schedule
    ensures { result ≡ always unit_table }
{
    Schedule::new(CostTable::builtin(), Vec::new(alloc))
}

/// How the two entries ended.
#[derive(Drop)]
pub(crate) struct Both {
    deployed: Ended,
    called: Ended,
}

/// Does what the two entries ask for. Where the deployment is refused, the call finds no contract.
fn run_both(
    alloc: Global,
    node: &mut Node,
    costs: &Schedule,
    first: &Entry,
    second: &Entry,
) -> Result<Both, NoMemory>
    requires first { IsFirst [] node.now }
    requires rising { NeverFall 0 (first.now ∷ second.now ∷ []) }
    ensures { IfOk result (AreBoth costs.now first.now second.now) }
{
    nodes_are_known_in_one_way();
    heights_are_those_of_the_file();
    let deployed = end_entry(alloc, node, costs, 0, first)?;
    let called = end_entry(alloc, node, costs, 1, second)?;
    Ok(Both { deployed, called })
}

fn call_status(end: End) -> Status
    ensures { result ≡ call_status end }
{
    match end {
        End::Good => Status::Done,
        End::Bad | End::Aborted | End::Refused => Status::NotGood,
    }
}

fn status_of(deployed: End, called: End) -> Status
    ensures { result ≡ status_of deployed called }
{
    match deployed {
        End::Refused => Status::Refused,
        End::Aborted => Status::NotGood,
        End::Good | End::Bad => call_status(called),
    }
}

/// The lines of the deployment, and behind them those of the call unless the deployment is refused.
fn lines_by(end: End, front: Vec<u8>, back: &[u8]) -> Result<Vec<u8>, AllocError>
    ensures { IfOk result (λ text. text.items ≡ lines_by end front.items back.now) }
{
    match end {
        End::Refused => Ok(front),
        End::Good | End::Bad | End::Aborted => concat_bytes(front, back, b""),
    }
}

/// The report of the two entries.
fn report(both: Both) -> Result<Reply, AllocError>
    ensures { IfOk result (λ reply. reply ≡ record {
      text = lines_by both.deployed.end both.deployed.text.items both.called.text.items;
      status = status_of both.deployed.end both.called.end;
    }) }
{
    let Both { deployed, called } = both;
    let status = status_of(deployed.end, called.end);
    let text = lines_by(deployed.end, deployed.text, called.text.as_slice())?;
    Ok(bytes_reply(text, status))
}

/// The report of the two entries from the first node on.
fn report_on(
    alloc: Global,
    node: &mut Node,
    first: &Entry,
    second: &Entry,
) -> Result<Reply, NoMemory>
    requires first { IsFirst [] node.now }
    requires rising { NeverFall 0 (first.now ∷ second.now ∷ []) }
    ensures { IfOk result (IsReportOf first.now second.now) }
{
    runs_are_sound();
    let costs = unit_schedule(alloc);
    let both = run_both(alloc, node, &costs, first, second)?;
    Ok(report(both)?)
}

/// The report of the two entries, on a node whose tables hash by the key.
fn report_of(
    alloc: Global,
    hash_key: HashKey,
    first: &Entry,
    second: &Entry,
) -> Result<Reply, NoMemory>
    requires { NeverFall 0 (first.now ∷ second.now ∷ []) }
    ensures { IfOk result (IsReportOf first.now second.now) }
{
    let mut node = Node::genesis_with_hash_key(alloc, hash_key, Vec::new(alloc))?;
    let reply = report_on(alloc, &mut node, first, second);
    drop(node);
    reply
}

/// The call of a function of the contract, by its name.
fn call_by(alloc: Global, function: &str, args: Row<Val>) -> Result<Entry, AllocError>
    ensures { IfOk result (λ entry. entry ≡ call function.now args) }
{
    let function = Vec::from_slice(alloc, function.as_bytes())?;
    Ok(call(alloc, function, args))
}

/// The reply for the deployment of this source, and this call.
fn reply_for(
    alloc: Global,
    source: Row<u8>,
    version: Version,
    second: &Entry,
) -> Result<Reply, NoMemory>
    requires { NeverFall 0 (deployment (text_of source version) ∷ second.now ∷ []) }
    ensures { IfOk result (IsReportOf (deployment (text_of source version)) second.now) }
{
    let hash_key = HashKey::of(source.as_slice());
    let first = deployment(alloc, source, version);
    report_of(alloc, hash_key, &first, second)
}

/// The reply to `call` for a source of this version, the name of a function and its arguments.
pub fn call_reply(
    alloc: Global,
    source: Row<u8>,
    version: Version,
    function: &str,
    args: Row<Val>,
) -> Result<Reply, NoMemory>
    ensures { IfOk result (IsCalled (text_of source version) function.now args) }
{
    let second = call_by(alloc, function, args)?;
    reply_for(alloc, source, version, &second)
}
