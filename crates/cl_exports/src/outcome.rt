//! How calls on a node end.
ghost use Rattle.std.specs.Prelude.{◌≡◌};
ghost use Rattle.cl_exports.specs.Outcomes.{number_of};

/// How a call on a node ends.
#[derive(Clone, Copy)]
pub enum Outcome {
    /// It was done.
    Done,
    /// A file is too long, no cost file or no transaction file.
    BadFile,
    /// A source that was checked breaks a rule.
    Refused,
    /// Memory ran out.
    NoMemory,
    /// The pieces are no call, or a check has no contract or no version.
    NoRequest,
    /// A block's height is below the node's.
    Falls,
    /// The file has holders or epochs, which a node has from its opening.
    HasHolders,
}

/// The number of an outcome. 0, 5, 6 and 9 are the statuses of the program.
pub fn number_of(outcome: Outcome) -> u32
    ensures { result ≡ number_of outcome }
{
    match outcome {
        Outcome::Done => 0,
        Outcome::BadFile => 5,
        Outcome::Refused => 6,
        Outcome::NoMemory => 9,
        Outcome::NoRequest => 10,
        Outcome::Falls => 12,
        Outcome::HasHolders => 13,
    }
}
