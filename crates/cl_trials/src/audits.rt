//! The call `audit`, whose refusals of another number of results and of a result that differs no
//! command reaches.
use cl_audit::Trace;
use cl_audit_results::{AuditRefusal, audit, audited};
use cl_costs::CostTable;
use cl_entries::schedule_of;
use cl_tx::{TxFile, TxResult, read};
use cl_types::{Fault, NoMemory};
use std::alloc::Global;
use std::test::Fail;

// A block, and a deployment without expressions: neither has claims.
const FILE: &str = "{\"version\": 1, \"genesis\": [], \"entries\": [
{\"block\": {\"height\": 7}},
{\"deploy\": {\"sender\": \"SP000000000000000000002Q6VF78\", \"name\": \"c\", \"source\": \"\"}}
]}";

fn file(alloc: Global) -> Result<TxFile, Fail> {
    match read(alloc, FILE.as_bytes()) {
        Ok(file) => Ok(file),
        Err(_) => Err("a transaction file".into()),
    }
}

fn results(alloc: Global) -> Result<Vec<TxResult>, Fail> {
    let file = file(alloc)?;
    let costs = schedule_of(alloc, &CostTable::builtin(), &file)?;
    let traces = [Trace::new(alloc), Trace::new(alloc)];
    match audited(alloc, &file, &costs, &traces) {
        Ok(results) => Ok(results),
        Err(_) => Err("results".into()),
    }
}

// why the auditor says no to these results, if it does
fn refusal(alloc: Global, results: &[TxResult]) -> Result<Option<AuditRefusal>, Fail> {
    let file = file(alloc)?;
    let costs = schedule_of(alloc, &CostTable::builtin(), &file)?;
    let traces = [Trace::new(alloc), Trace::new(alloc)];
    match audit(alloc, &file, &costs, &traces, results) {
        Ok(()) => Ok(None),
        Err(Fault::Refused(refusal)) => Ok(Some(refusal)),
        Err(Fault::NoMemory) => Err(NoMemory.into()),
    }
}

fn refusal_of_all(alloc: Global) -> Result<Option<AuditRefusal>, Fail> {
    let results = results(alloc)?;
    refusal(alloc, &results)
}

fn refusal_of_none(alloc: Global) -> Result<Option<AuditRefusal>, Fail> {
    let results = results(alloc)?;
    refusal(alloc, &results[..0])
}

fn refusal_of_the_reverse(alloc: Global) -> Result<Option<AuditRefusal>, Fail> {
    let mut results = results(alloc)?;
    results.reverse();
    refusal(alloc, &results)
}

#[test]
fn the_results_of_a_file_are_taken(rt: HostRuntime) -> Result<(), Fail> {
    assert!(rt; refusal_of_all(rt.alloc())?.is_none());
    Ok(())
}

#[test]
fn another_number_of_results_is_counted(rt: HostRuntime) -> Result<(), Fail> {
    assert!(rt; matches!(refusal_of_none(rt.alloc())?, Some(AuditRefusal::Count)));
    Ok(())
}

#[test]
fn the_first_result_that_differs_is_named(rt: HostRuntime) -> Result<(), Fail> {
    let refusal = refusal_of_the_reverse(rt.alloc())?;
    assert!(rt; matches!(refusal, Some(AuditRefusal::Differs { entry: 0 })));
    Ok(())
}
