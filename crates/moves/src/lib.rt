// Moves for the runs of a plan: lift, then for each run approach, descend, plunge, cut, retract and rise. One step gives the next move.
#![tactic(auto)]

ghost use Rattle.std.specs.Prelude.{◌≡◌, true, false, ◌+◌, ◌*◌, ◌<◌};
ghost use Rattle.std.specs.Prelude.{Ok, Some};
ghost use Rattle.refusals.specs.Numbers.{code_of};
ghost use Rattle.fives.specs.Tables.{room_of};
ghost use Rattle.moves.specs.Phases.{point, line_of, leg_of, same_of, phase_number, kind_number, is_lift, is_ended};
ghost use Rattle.moves.specs.Begin.{largest, runs_of, in_order, are_heights, is_run, are_runs, are_ids, refusal_of_runs, refusal_of_begin, state_at, told as begun_told, begin_of};
ghost use Rattle.moves.specs.Next.{move_by, moved_by, passed_by, told, lines_left, go_on, is_within, is_spent, refusal_of_state, next_of};
ghost use Rattle.moves.specs.Laws.{Followed};

use refusals::Refusal;
use runs::Run;

const LARGEST: u64 = 18446744073709551615;

#[derive(Clone, Copy)]
pub struct Point {
    pub x: f64,
    pub y: f64,
    pub z: f64,
}

// The operation begins and ends at the clearance height, travels between runs at the retract height, and rapids stop at the feed height.
#[derive(Clone, Copy)]
pub struct Heights {
    pub clearance: f64,
    pub retract: f64,
    pub feed: f64,
}

#[derive(Clone, Copy)]
pub enum Phase {
    Lift,
    Approach,
    Descend,
    Plunge,
    Cut,
    Retract,
    Rise,
    Ended,
}

#[derive(Clone, Copy)]
pub enum Kind {
    Rapid,
    Plunge,
    Cut,
    Retract,
}

// Where the steps stand.
#[derive(Clone, Copy)]
pub struct State {
    pub phase: Phase,
    pub run: usize,
    pub position: Point,
    pub next_id: u64,
}

// A straight move.
#[derive(Clone, Copy)]
pub struct Move {
    pub start: Point,
    pub end: Point,
    pub kind: Kind,
    pub id: u64,
}

// A move, or none at the end, and the state after it.
#[derive(Clone, Copy)]
pub struct Stepped {
    pub step: Option<Move>,
    pub state: State,
}

// A line of the phase table.
#[derive(Clone, Copy)]
pub struct Leg {
    pub end: Point,
    pub kind: Kind,
    pub next: Phase,
    pub run: usize,
}

// The state before the first move.
pub fn begin(runs: &[f64], h: Heights, start: Point, first_id: u64) -> Result<State, Refusal>
    ensures value { begun_told result ≡ begin_of runs.now h start first_id }
    ensures followed { Followed runs.now h (begun_told result).refusal (begun_told result).state }
{
    refusal_of_begin(runs, h, start, first_id)?;
    Ok(state_at(start, first_id))
}

// The next move, or the end, and the state after it.
pub fn next(runs: &[f64], h: Heights, s: State) -> Result<Stepped, Refusal>
    ensures { told s result ≡ next_of runs.now h s }
{
    refusal_of_state(runs, s)?;
    Ok(go_on(runs, h, s))
}

// ---- where the moves begin

// Lift, run 0, at p.
fn state_at(p: Point, first_id: u64) -> State
    ensures { result ≡ state_at p first_id }
{
    State {
        phase: Phase::Lift,
        run: 0,
        position: p,
        next_id: first_id,
    }
}

// Refusals 1, 26 and 27.
#[tactic(auto, using(rules::proofs::Ladder::ladder), unfolding(crate::specs::Begin::refusal_of_begin, refusals::specs::Numbers::code_of, refusals::specs::Numbers::number_of))]
fn refusal_of_begin(runs: &[f64], h: Heights, start: Point, first_id: u64) -> Result<(), Refusal>
    ensures { code_of result ≡ refusal_of_begin runs.now h start first_id }
{
    if runs.len() % 5 != 0 {
        return Err(Refusal::Length);
    }
    if !are_heights(h, start) {
        return Err(Refusal::Heights);
    }
    refusal_of_runs(runs, h.feed, first_id)
}

// Refusal 26 of the runs, or 27.
#[tactic(auto, using(rules::proofs::Ladder::ladder), unfolding(crate::specs::Begin::refusal_of_runs, refusals::specs::Numbers::code_of, refusals::specs::Numbers::number_of))]
fn refusal_of_runs(runs: &[f64], feed: f64, first_id: u64) -> Result<(), Refusal>
    ensures { code_of result ≡ refusal_of_runs runs.now feed first_id }
{
    if !are_runs(feed, runs) {
        return Err(Refusal::Heights);
    }
    if !are_ids(first_id, runs.len() / 5) {
        return Err(Refusal::Id);
    }
    Ok(())
}

// Whether heights and start are in their ranges and in order.
#[tactic(auto, unfolding(crate::specs::Begin::are_heights))]
fn are_heights(h: Heights, p: Point) -> bool
    ensures { result ≡ are_heights h p }
{
    parameters::are_three(h.clearance, h.retract, h.feed)
        && (parameters::are_three(p.x, p.y, p.z) && in_order(h, p))
}

// feed <= retract <= clearance <= start z.
#[tactic(auto, unfolding(crate::specs::Begin::in_order))]
fn in_order(h: Heights, p: Point) -> bool
    ensures { result ≡ in_order h p }
{
    h.feed <= h.retract && (h.retract <= h.clearance && h.clearance <= p.z)
}

// Whether every run is in its ranges.
fn are_runs(feed: f64, runs: &[f64]) -> bool
    ensures { result ≡ are_runs feed (runs_of runs.now) }
{
    // by index: a run is five numbers of the table, which `run_at` reads by its place
    for m in 0..runs.len() / 5 {
        if !is_run(feed, join::run_at(runs, m)) {
            return false;
        }
    }
    true
}

// The same of one run.
#[tactic(auto, unfolding(crate::specs::Begin::is_run))]
fn is_run(feed: f64, r: Run) -> bool
    ensures { result ≡ is_run feed r }
{
    parameters::are_three(r.ax, r.ay, r.z)
        && (plane::is_coordinate(r.bx) && (plane::is_coordinate(r.by) && r.z <= feed))
}

// Whether the ids of n runs fit: the first is not 0, and the first and 7 * n + 1 more end within a u64.
fn are_ids(first_id: u64, n: usize) -> bool
    ensures { result ≡ are_ids first_id n }
{
    if first_id == 0 {
        return false;
    }
    let room = LARGEST - first_id;
    if room == 0 {
        return false;
    }
    n as u64 <= (room - 1) / 7
}

// ---- one step

// Refusals 1 and 29.
#[tactic(auto, using(rules::proofs::Ladder::ladder), unfolding(crate::specs::Next::refusal_of_state, refusals::specs::Numbers::code_of, refusals::specs::Numbers::number_of))]
fn refusal_of_state(runs: &[f64], s: State) -> Result<(), Refusal>
    ensures { code_of result ≡ refusal_of_state runs.now s }
{
    if runs.len() % 5 != 0 {
        return Err(Refusal::Length);
    }
    if !is_within(runs.len() / 5, s) {
        return Err(Refusal::State);
    }
    if is_spent(s) {
        return Err(Refusal::State);
    }
    Ok(())
}

// Whether a state's run is in a table of n runs, where it needs one.
#[tactic(auto, unfolding(crate::specs::Next::is_within))]
fn is_within(n: usize, s: State) -> bool
    ensures { result ≡ is_within n s }
{
    let phase = s.phase;
    if is_ended(phase) {
        return true;
    }
    if s.run < n {
        return true;
    }
    is_lift(phase) && n == 0
}

// Whether a state that is not ended has no next id.
#[tactic(auto, unfolding(crate::specs::Next::is_spent))]
fn is_spent(s: State) -> bool
    ensures { result ≡ is_spent s }
{
    let phase = s.phase;
    if is_ended(phase) {
        return false;
    }
    s.next_id == LARGEST
}

#[tactic(auto, unfolding(crate::specs::Phases::is_lift))]
fn is_lift(p: Phase) -> bool
    ensures { result ≡ is_lift p }
{
    phase_number(p) == 0
}

#[tactic(auto, unfolding(crate::specs::Phases::is_ended))]
fn is_ended(p: Phase) -> bool
    ensures { result ≡ is_ended p }
{
    phase_number(p) == 7
}

// A phase's number, 0 to 7.
#[tactic(auto, unfolding(crate::specs::Phases::phase_number))]
pub fn phase_number(p: Phase) -> u64
    ensures { result ≡ phase_number p }
{
    match p {
        Phase::Lift => 0,
        Phase::Approach => 1,
        Phase::Descend => 2,
        Phase::Plunge => 3,
        Phase::Cut => 4,
        Phase::Retract => 5,
        Phase::Rise => 6,
        Phase::Ended => 7,
    }
}

// A kind's number, 1 to 4.
#[tactic(auto, unfolding(crate::specs::Phases::kind_number))]
pub fn kind_number(k: Kind) -> u64
    ensures { result ≡ kind_number k }
{
    match k {
        Kind::Rapid => 1,
        Kind::Plunge => 2,
        Kind::Cut => 3,
        Kind::Retract => 4,
    }
}

// The first line from a state on whose move is not left out, or the end.
fn go_on(runs: &[f64], h: Heights, s: State) -> Stepped
    requires s_value { is_within (room_of runs.now) s ≡ true }
    requires s_value_2 { is_spent s ≡ false }
    ensures { told s (Ok result) ≡ go_on runs.now h (lines_left (room_of runs.now) s) s }
{
    let mut now = s;
    while !is_done(now) {
        let l = leg_of(runs, h, now);
        if !is_empty(now, l) {
            return given(now, l);
        }
        now = passed(now, l);
    }
    Stepped {
        step: None,
        state: now,
    }
}

// Whether a state is the end.
fn is_done(s: State) -> bool
    ensures { result ≡ is_ended s.phase }
{
    let phase = s.phase;
    is_ended(phase)
}

// Whether a line's move ends where it starts.
fn is_empty(s: State, l: Leg) -> bool
    ensures { result ≡ same_of l.end s.position }
{
    let p = s.position;
    let end = l.end;
    end.x == p.x && (end.y == p.y && end.z == p.z)
}

// A line's move, and the state after it.
fn given(s: State, l: Leg) -> Stepped
    requires { s.next_id ≡ largest → ⊥ }
    ensures { result ≡ record { step = Some (move_by s l); state = moved_by s l } }
{
    let start = s.position;
    let end = l.end;
    let kind = l.kind;
    let next = l.next;
    let id = s.next_id;
    let go = Move {
        start,
        end,
        kind,
        id,
    };
    let state = State {
        phase: next,
        run: l.run,
        position: end,
        next_id: id + 1,
    };
    Stepped {
        step: Some(go),
        state,
    }
}

// The state after a line whose move is left out.
fn passed(s: State, l: Leg) -> State
    ensures { result ≡ passed_by s l }
{
    let phase = l.next;
    let position = s.position;
    State {
        phase,
        run: l.run,
        position,
        next_id: s.next_id,
    }
}

// The line of the phase table that a state is at.
fn leg_of(runs: &[f64], h: Heights, s: State) -> Leg
    requires { is_within (room_of runs.now) s ≡ true }
    ensures { result ≡ leg_of runs.now h s }
{
    let phase = s.phase;
    let p = s.position;
    let m = s.run;
    match phase {
        Phase::Lift => lift(runs, h, m, p),
        Phase::Approach => approach(runs, h, m, p),
        Phase::Descend => line(p.x, p.y, h.feed, Kind::Rapid, Phase::Plunge, m),
        Phase::Plunge => plunge(runs, h, m, p),
        Phase::Cut => cut(runs, h, m, p),
        Phase::Retract => {
            let z = numbers::max(h.feed, p.z);
            line(p.x, p.y, z, Kind::Retract, Phase::Rise, m)
        }
        Phase::Rise => rise(runs, h, m, p),
        Phase::Ended => line(p.x, p.y, p.z, Kind::Rapid, Phase::Ended, m),
    }
}

fn line(x: f64, y: f64, z: f64, kind: Kind, next: Phase, run: usize) -> Leg
    ensures { result ≡ record { end = point x y z; kind = kind; next = next; run = run } }
{
    let end = Point { x, y, z };
    Leg {
        end,
        kind,
        next,
        run,
    }
}

// To the clearance height.
fn lift(runs: &[f64], h: Heights, m: usize, p: Point) -> Leg
    ensures { result ≡ line_of runs.now h Phase.Lift m p }
{
    if runs.len() / 5 == 0 {
        return line(p.x, p.y, h.clearance, Kind::Rapid, Phase::Ended, m);
    }
    line(p.x, p.y, h.clearance, Kind::Rapid, Phase::Approach, m)
}

// Over the run's start.
fn approach(runs: &[f64], h: Heights, m: usize, p: Point) -> Leg
    requires { m < room_of runs.now }
    ensures { result ≡ line_of runs.now h Phase.Approach m p }
{
    let r = join::run_at(runs, m);
    line(r.ax, r.ay, p.z, Kind::Rapid, Phase::Descend, m)
}

// To the run's z.
fn plunge(runs: &[f64], h: Heights, m: usize, p: Point) -> Leg
    requires { m < room_of runs.now }
    ensures { result ≡ line_of runs.now h Phase.Plunge m p }
{
    let r = join::run_at(runs, m);
    line(p.x, p.y, r.z, Kind::Plunge, Phase::Cut, m)
}

// To the run's end.
fn cut(runs: &[f64], h: Heights, m: usize, p: Point) -> Leg
    requires { m < room_of runs.now }
    ensures { result ≡ line_of runs.now h Phase.Cut m p }
{
    let r = join::run_at(runs, m);
    line(r.bx, r.by, r.z, Kind::Cut, Phase::Retract, m)
}

// To the retract height, or after the last run to the clearance height, where that is up.
fn rise(runs: &[f64], h: Heights, m: usize, p: Point) -> Leg
    requires { m < room_of runs.now }
    ensures { result ≡ line_of runs.now h Phase.Rise m p }
{
    if m + 1 == runs.len() / 5 {
        let z = numbers::max(h.clearance, p.z);
        return line(p.x, p.y, z, Kind::Rapid, Phase::Ended, m + 1);
    }
    let z = numbers::max(h.retract, p.z);
    line(p.x, p.y, z, Kind::Rapid, Phase::Approach, m + 1)
}
