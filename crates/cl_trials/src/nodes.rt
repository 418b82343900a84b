//! What a node does that no command asks for: calls that are tried, their grafts, and traces.
use cl_c32::{Address, ContractName, Principal};
use cl_code::Watch;
use cl_costs::{CostTable, Schedule, read};
use cl_engine::Node;
use cl_forms::Version;
use cl_post::Mode;
use cl_sexpr::Span;
use cl_state::Spot;
use cl_tables::Place;
use cl_tx::{Common, Conditions, Entry, Outcome, Row, TxResult};
use cl_types::{Name, NoMemory};
use cl_values::{Kind, Val};
use std::alloc::Global;
use std::test::Fail;

/// How many nodes gave a value.
#[derive(Drop)]
struct Count {
    nodes: usize,
}

impl Watch for Count {
    ghost use Rattle.std.specs.Prelude.{None};

    ghost seen = { λ w. None };

    fn saw(&mut self, _span: Span, _value: &Val) -> Result<(), NoMemory> {
        self.nodes = self.nodes.saturating_add(1);
        Ok(())
    }
}

fn counter() -> Result<Principal, Fail> {
    Ok(Principal {
        address: Address::new(22, &[0; 20]),
        contract: Some(ContractName::make(b"counter").ok_or("a name")?),
    })
}

fn common(alloc: Global) -> Common {
    Common {
        sender: Address::new(22, &[0; 20]),
        limit: [u64::MAX; 5],
        mode: Mode::Allow,
        conditions: Conditions::none(alloc),
    }
}

fn bytes(alloc: Global, text: &[u8]) -> Result<Row<u8>, Fail> {
    let mut items = Vec::new(alloc);
    for byte in text {
        items.push(*byte)?;
    }
    Ok(Row::new(items))
}

// (define-data-var n uint u0), and a function that adds 1 and answers ok with the sum
fn deployment(alloc: Global) -> Result<Entry, Fail> {
    Ok(Entry::Deploy {
        common: common(alloc),
        name: ContractName::make(b"counter").ok_or("a name")?,
        source: bytes(
            alloc,
            b"(define-data-var n uint u0) (define-public (inc) (begin (var-set n (+ (var-get n) u1)) (ok (var-get n))))",
        )?,
        version: Version::One,
    })
}

fn is_number(answer: &TxResult, wanted: u128) -> bool {
    match &answer.outcome {
        Outcome::Good(value) => match &value.value().kind {
            Kind::Uint(number) => *number == wanted,
            _ => false,
        },
        _ => false,
    }
}

// what a call of the function answers where nothing of it is kept
fn peeks(alloc: Global, node: &mut Node, costs: &Schedule, wanted: u128) -> Result<bool, Fail> {
    let entry = Entry::Call {
        common: common(alloc),
        contract: counter()?,
        function: bytes(alloc, b"inc")?,
        args: Row::new(Vec::new(alloc)),
    };
    let result = node.peek(alloc, &entry, costs)?;
    Ok(is_number(&result, wanted))
}

// what it answers where it is kept, and whether the seven nodes of its body were seen
fn steps(alloc: Global, node: &mut Node, costs: &Schedule, wanted: u128) -> Result<bool, Fail> {
    let entry = Entry::Call {
        common: common(alloc),
        contract: counter()?,
        function: bytes(alloc, b"inc")?,
        args: Row::new(Vec::new(alloc)),
    };
    let mut count = Count { nodes: 0 };
    let result = node.step_watched(alloc, &entry, costs, &mut count)?;
    Ok(is_number(&result, wanted) && count.nodes == 7)
}

// what it answers on a copy of the state, of which the variable is taken over
fn grafts(alloc: Global, node: &mut Node, costs: &Schedule, wanted: u128) -> Result<bool, Fail> {
    let entry = Entry::Call {
        common: common(alloc),
        contract: counter()?,
        function: bytes(alloc, b"inc")?,
        args: Row::new(Vec::new(alloc)),
    };
    let trial = node.trial(alloc, &entry, costs)?;
    let spot = Spot::Variable(Place {
        contract: counter()?,
        name: Name::make(b"n").ok_or("a name")?,
    });
    node.graft(&trial.world, &[spot])?;
    Ok(is_number(&trial.result, wanted))
}

// one table, in which nothing costs anything
fn free(alloc: Global) -> Result<Schedule, Fail> {
    let table = read(
        alloc,
        b"{\"literal\":{},\"lookup\":{},\"context\":{},\"control\":{},\"call\":{},\"bind\":{},\"arith\":{},\"compare\":{},\"hash\":{},\"wrap\":{},\"make\":{},\"take\":{},\"scan\":{},\"iterate\":{},\"read_var\":{},\"write_var\":{},\"read_map\":{},\"write_map\":{},\"read_token\":{},\"write_token\":{},\"event\":{},\"contract_call\":{},\"deploy\":{},\"define\":{}}",
    );
    Ok(Schedule::always(alloc, table.ok().ok_or("a table")?))
}

fn is_charged(given: &TxResult, runtime: u128) -> bool {
    match &given.cost {
        Some(cost) => cost.runtime == runtime,
        None => false,
    }
}

// whether it is charged so much of runtime on a copy of the state, and where nothing of it is kept
fn charges(alloc: Global, node: &mut Node, costs: &Schedule, runtime: u128) -> Result<bool, Fail> {
    let entry = Entry::Call {
        common: common(alloc),
        contract: counter()?,
        function: bytes(alloc, b"inc")?,
        args: Row::new(Vec::new(alloc)),
    };
    let trial = node.trial(alloc, &entry, costs)?;
    let peeked = node.peek(alloc, &entry, costs)?;
    Ok(is_charged(&trial.result, runtime) && is_charged(&peeked, runtime))
}

fn counts(alloc: Global) -> Result<[bool; 8], Fail> {
    let costs = Schedule::always(alloc, CostTable::builtin());
    let mut node = Node::genesis(alloc, Vec::new(alloc))?;
    let deployed = node.step(alloc, &deployment(alloc)?, &costs)?;
    let done = matches!(deployed.outcome, Outcome::Done);
    let first = peeks(alloc, &mut node, &costs, 1)?;
    let second = steps(alloc, &mut node, &costs, 1)?;
    let third = peeks(alloc, &mut node, &costs, 2)?;
    let fourth = grafts(alloc, &mut node, &costs, 2)?;
    let fifth = peeks(alloc, &mut node, &costs, 3)?;
    let nothing = free(alloc)?;
    let sixth = charges(alloc, &mut node, &nothing, 0)?;
    let seventh = charges(alloc, &mut node, &costs, 8)?;
    Ok([done, first, second, third, fourth, fifth, sixth, seventh])
}

#[test]
fn calls_are_tried_and_grafted(rt: HostRuntime) -> Result<(), Fail> {
    assert!(rt; counts(rt.alloc())? == [true; 8]);
    Ok(())
}
