//! Why the auditor says no.

/// Why traces or results are not those of a file.
#[derive(Clone, Copy)]
pub enum AuditRefusal {
    /// 1: there aren't as many traces, or results, as entries.
    Count,
    /// 2: the trace of this entry differs first at this claim, which is another, or which only one
    /// of the two has.
    Claim { entry: u32, claim: u32 },
    /// 3: the result of this entry is another.
    Differs { entry: u32 },
}
