//! What holds of workloads: each function here is a law, and does nothing.
ghost use Rattle.cl_workload.specs.Summary.{WorkloadsAreSmall};

/// A workload has as many results as entries, and none costs more runtime than the limit of an
/// entry and one unit.
pub fn workloads_are_small()
    ensures { WorkloadsAreSmall }
{}
