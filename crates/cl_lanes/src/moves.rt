//! The moves of lanes.

/// What the lanes do next. The lanes, and the entries that are committed, are counted from 0.
#[derive(Clone, Copy)]
pub enum Move {
    /// The lane tries the call so many entries after the next one, on the present node.
    Run { lane: u32, ahead: u32 },
    /// What the lane holds is committed, if it is the next entry and its trial still holds.
    Commit { lane: u32 },
    /// The next entry, a deployment or a block, is stepped.
    Barrier,
}
