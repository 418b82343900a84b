//! The moves that are drawn.
ghost use Rattle.std.specs.Prelude.{◌≡◌, ◌<◌, IfOk};
ghost use Rattle.cl_lanes_app.specs.Draws.{drawn_moves, move_for};

use cl_lanes::Move;
use cl_types::NoMemory;
use cl_workload::Draws;
use std::alloc::Global;

/// The move for a drawn number.
fn move_for(lanes: u32, draw: u64) -> Move
    requires { 0 < lanes }
    ensures { result ≡ move_for lanes draw }
{
    let count = u64::from(lanes);
    let kind = draw % 4;
    let lane = (draw / 4 % count) as u32;
    if kind == 2 {
        return Move::Commit { lane };
    }
    if kind == 3 {
        return Move::Barrier;
    }
    let ahead = (draw / 64 % count) as u32;
    Move::Run { lane, ahead }
}

/// So many moves, drawn by a seed.
pub(crate) fn drawn_moves(
    alloc: Global,
    lanes: u32,
    seed: u64,
    count: usize,
) -> Result<Vec<Move>, NoMemory>
    requires { 0 < lanes }
    ensures { IfOk result (λ moves. moves.items ≡ drawn_moves lanes seed count) }
{
    let mut moves = Vec::with_capacity(alloc, count)?;
    let mut draws = Draws::new(seed);
    for _ in 0..count {
        let draw = draws.next_draw();
        moves.push(move_for(lanes, draw))?;
    }
    Ok(moves)
}
