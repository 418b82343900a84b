//! The bounds of a contract under a table.
use cl_bound::{KnownBounds, rebound};
use cl_c32::{Address, ContractName, Principal};
use cl_check::check;
use cl_contracts::{Checked, Deployed};
use cl_costs::CostTable;
use cl_forms::Version;
use cl_tx::Reach;
use std::alloc::Global;
use std::test::Fail;

fn add1(alloc: Global) -> Result<Checked, Fail> {
    let principal = Principal {
        address: Address::new(22, &[0; 20]),
        contract: ContractName::make(b"inc"),
    };
    let deployed = Deployed::new(alloc);
    let source = b"(define-read-only (add1 (x int)) (+ x 1))";
    let checked = check(alloc, &deployed, &principal, source, Version::One);
    Ok(checked.ok().ok_or("a contract")?)
}

// Under the unit table a call of the function takes 5 steps.
fn rebounds_add1(alloc: Global) -> Result<bool, Fail> {
    let checked = add1(alloc)?;
    let known = KnownBounds::new(alloc);
    let repriced = rebound(alloc, &checked, &known, &CostTable::builtin())?;
    Ok(match repriced.reaches.as_slice() {
        [(name, Reach::Bound(bound))] => name.bytes() == b"add1".as_slice() && bound.runtime == 5,
        _ => false,
    })
}

#[test]
fn bounds_under_a_table(rt: HostRuntime) -> Result<(), Fail> {
    assert!(rt; rebounds_add1(rt.alloc())?);
    Ok(())
}
