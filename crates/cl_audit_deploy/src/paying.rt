//! The charges of a deployment.
ghost use Rattle.cl_audit_deploy.specs.Deploying.{PaysFirst};

use cl_audit_steps::{Charge, Scope};
use cl_audit_walk::Run;
use cl_walks::Stop;

/// Pays a charge.
pub(crate) fn pay(run: &mut Run, scope: &Scope, charge: Charge) -> Result<(), Stop>
    ensures { PaysFirst scope.now charge run.old result run.new }
{
    match run
        .meter
        .charge(scope.costs.of(charge.name()).at(charge.number()))
    {
        Ok(()) => Ok(()),
        Err(over) => Err(Stop::CostLimit(over)),
    }
}
