// What C and Rust call of the moves: include/mandrikelo.h declares these functions. The state goes in and comes back in two arrays, its
// position and its phase, run and next id; the contract is the library's own, and asks nothing of the caller.
#![tactic(auto)]

ghost use Rattle.std.specs.Prelude.{◌≡◌, ◌%◌, eqb, length};
ghost use Rattle.rules.specs.Ladder.{demand};
ghost use Rattle.refusals.specs.Numbers.{number_of};
ghost use Rattle.moves.specs.Begin.{begin_of};
ghost use Rattle.moves.specs.Next.{told};
ghost use Rattle.moves.specs.Laws.{Followed};
ghost use Rattle.desk_moves.specs.Doors.{point_from, heights_from, early_phase, late_phase, phase_from, state_from, begun_left};
ghost use Rattle.desk_moves.specs.Doors.{begun_left_by, next_from, end_left, kind_left, id_left, next_left, next_left_by};

use moves::{Heights, Move, Phase, Point, State, Stepped};
use refusals::Refusal;

// The state before the first move.
#[unsafe(no_mangle)]
pub extern "C" fn mandrikelo_moves_begin(
    runs: &[f64],
    heights: &[f64; 3],
    start: &[f64; 3],
    first_id: u64,
    position: &mut [f64; 3],
    state: &mut [u64; 3],
) -> u32
    ensures state_after { begun_left result position.new state.new
        ≡ begun_left_by position.old state.old
        (begin_of runs.now (heights_from heights.now) (point_from start.now) first_id) }
    ensures followed { Followed runs.now (heights_from heights.now) result (state_from position.new state.new) }
{
    let a = moves::begin(runs, heights_from(heights), point_from(start), first_id);
    match a {
        Ok(s) => {
            let p = s.position;
            let number = moves::phase_number(s.phase);
            *position = [p.x, p.y, p.z];
            *state = [number, s.run as u64, s.next_id];
            0
        }
        Err(refusal) => refusal.number(),
    }
}

// The next move, or the end.
#[unsafe(no_mangle)]
pub extern "C" fn mandrikelo_moves_next(
    runs: &[f64],
    heights: &[f64; 3],
    position: &mut [f64; 3],
    state: &mut [u64; 3],
    end: &mut [f64; 3],
    go: &mut [u64; 2],
) -> u32
    ensures { next_left result position.new state.new end.new go.new
        ≡ next_left_by position.old state.old
        (next_from runs.now heights.now position.old state.old) }
{
    let a = next_from(runs, heights, position, state);
    match a {
        Ok(stepped) => {
            let e = end_of(stepped.step);
            let kind = kind_of(stepped.step);
            let id = id_of(stepped.step);
            let after = stepped.state;
            let q = after.position;
            let number = moves::phase_number(after.phase);
            *end = [e.x, e.y, e.z];
            *go = [kind, id];
            *position = [q.x, q.y, q.z];
            *state = [number, after.run as u64, after.next_id];
            0
        }
        Err(refusal) => {
            *end = [0.0, 0.0, 0.0];
            *go = [0, 0];
            refusal.number()
        }
    }
}

// ---- from C's arrays

fn point_from(xs: &[f64; 3]) -> Point
    ensures { result ≡ point_from xs.now }
{
    Point {
        x: xs[0],
        y: xs[1],
        z: xs[2],
    }
}

fn heights_from(xs: &[f64; 3]) -> Heights
    ensures { result ≡ heights_from xs.now }
{
    Heights {
        clearance: xs[0],
        retract: xs[1],
        feed: xs[2],
    }
}

#[tactic(auto, unfolding(crate::specs::Doors::state_from))]
fn state_from(position: &[f64; 3], state: &[u64; 3]) -> State
    ensures { result ≡ state_from position.now state.now }
{
    let p = point_from(position);
    let phase = phase_from(state[0]);
    State {
        phase,
        run: state[1] as usize,
        position: p,
        next_id: state[2],
    }
}

// The phase of a number, 0 to 7.
#[tactic(auto, unfolding(crate::specs::Doors::phase_from))]
fn phase_from(n: u64) -> Phase
    ensures { result ≡ phase_from n }
{
    if n < 4 {
        return early_phase(n);
    }
    late_phase(n)
}

// The phases 0 to 3.
#[tactic(auto, unfolding(crate::specs::Doors::early_phase))]
fn early_phase(n: u64) -> Phase
    ensures { result ≡ early_phase n }
{
    if n == 0 {
        return Phase::Lift;
    }
    if n == 1 {
        return Phase::Approach;
    }
    if n == 2 {
        return Phase::Descend;
    }
    Phase::Plunge
}

// The phases 4 to 7.
#[tactic(auto, unfolding(crate::specs::Doors::late_phase))]
fn late_phase(n: u64) -> Phase
    ensures { result ≡ late_phase n }
{
    if n == 4 {
        return Phase::Cut;
    }
    if n == 5 {
        return Phase::Retract;
    }
    if n == 6 {
        return Phase::Rise;
    }
    Phase::Ended
}

// One step; a phase number above 7 is refused.
fn next_from(
    runs: &[f64],
    heights: &[f64; 3],
    position: &[f64; 3],
    state: &[u64; 3],
) -> Result<Stepped, Refusal>
    ensures { told (state_from position.now state.now) result ≡ next_from runs.now heights.now position.now state.now }
{
    let s = state_from(position, state);
    if 7 < state[0] {
        return Err(refusal_of_phase(runs));
    }
    moves::next(runs, heights_from(heights), s)
}

// Refusal 1 of the table, or 29.
#[tactic(auto, using(rules::proofs::Ladder::ladder), unfolding(refusals::specs::Numbers::number_of))]
fn refusal_of_phase(runs: &[f64]) -> Refusal
    ensures { number_of result ≡ demand (eqb (length runs.now % 5) 0) 1 29 }
{
    if runs.len() % 5 != 0 {
        Refusal::Length
    } else {
        Refusal::State
    }
}

// ---- a step's move, zeros where there is none

#[tactic(auto, unfolding(crate::specs::Doors::end_left))]
fn end_of(s: Option<Move>) -> Point
    ensures { result ≡ end_left s }
{
    match s {
        None => Point {
            x: 0.0,
            y: 0.0,
            z: 0.0,
        },
        Some(m) => m.end,
    }
}

#[tactic(auto, unfolding(crate::specs::Doors::kind_left))]
fn kind_of(s: Option<Move>) -> u64
    ensures { result ≡ kind_left s }
{
    match s {
        None => 0,
        Some(m) => moves::kind_number(m.kind),
    }
}

#[tactic(auto, unfolding(crate::specs::Doors::id_left))]
fn id_of(s: Option<Move>) -> u64
    ensures { result ≡ id_left s }
{
    match s {
        None => 0,
        Some(m) => m.id,
    }
}
