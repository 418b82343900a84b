//! Deployments before their evaluation.
ghost use Rattle.std.specs.Prelude.{IfOk};
ghost use Rattle.cl_types.specs.Fault.{IfRefused};
ghost use Rattle.cl_nodes.specs.Accepting.{IsDeployRefusal};
ghost use Rattle.cl_nodes.specs.Bounded.{IsWhole};
ghost use Rattle.cl_engine.specs.Deploying.{IsPrepared};

use crate::frame::frame_of;
use cl_frames::Frame;
use cl_nodes::{Accepted, Contracts, Deployment, Moment, accept};
use cl_tx::EntryRefusal;
use cl_types::Fault;
use std::alloc::Global;

/// An accepted contract, with the frame of its evaluation.
#[derive(Drop)]
pub(crate) struct Prepared {
    pub(crate) accepted: Accepted,
    pub(crate) frame: Frame,
}

/// What is evaluated in a deployment, or why its source isn't accepted.
pub(crate) fn prepare(
    alloc: Global,
    contracts: &Contracts,
    moment: &Moment,
    deployment: &Deployment,
) -> Result<Prepared, Fault<EntryRefusal>>
    requires { IsWhole contracts.now }
    ensures prepared { IfOk result (λ p. IsPrepared deployment.now moment.now contracts.now p) }
    ensures refused { IfRefused result (λ r. IsDeployRefusal deployment.now contracts.now r) }
{
    match accept(alloc, contracts, deployment) {
        Ok(accepted) => {
            let own = accepted.checked.parts();
            let frame = frame_of(deployment.common, &own.principal, moment.height);
            Ok(Prepared { accepted, frame })
        }
        Err(fault) => Err(fault),
    }
}
