// The plan: the flat levels of a mesh, and the runs that finish them.
#![tactic(auto)]

ghost use Rattle.std.specs.Prelude.{false, ◌≡◌, ◌*◌, ◌≤◌, length, replicate};
ghost use Rattle.grid.specs.Index.{index_of};
ghost use Rattle.fives.specs.Tables.{zeroed};
ghost use Rattle.levels.specs.Levels.{levels_of};
ghost use Rattle.refusals.specs.Numbers.{number_of, code_of};
ghost use Rattle.parameters.specs.Terms.{too_fine, any_of};
ghost use Rattle.parameters.specs.Inside.{levels_in};
ghost use Rattle.probe.specs.Inside.{Askable, Marked};
ghost use Rattle.plan.specs.Plan.{refusal_of_input, found_on, told, outcome, worked_of, plan_of, NeverSeven};
ghost use Rattle.plan.specs.Lost.{NothingLost};
ghost use Rattle.plan.specs.Inside.{Ready, Surveys, settled, given_up, settled_of, finished_of};

use grid::Header;
use parameters::Parameters;
use refusals::Refusal;
use rows::Axis;
use search::Counted;

// A plan's answer: the numbers of levels, rows and runs, the cut length and the dropped length.
#[derive(Clone, Copy)]
pub struct Planned {
    pub levels: usize,
    pub rows: usize,
    pub runs: usize,
    pub cut: f64,
    pub dropped: f64,
}

// The levels of a mesh and the runs on them, or why there is no plan. Refusals 1, 23, 9 and 7 touch nothing; 11, 10, 12 and 13 leave all three tables zero.
pub fn plan(
    mesh: &[f64],
    h: Header,
    starts: &[u32],
    members: &[u32],
    boxes: &[f64],
    marks: &mut [u32],
    levels: &mut [f64],
    runs: &mut [f64],
    p: Parameters,
    axis: Axis,
) -> Result<Planned, Refusal>
    ensures marks_after { outcome (told result) levels.new runs.new marks.new
        ≡ plan_of (index_of mesh.now h starts.now members.now boxes.now) marks.old levels.old
        runs.old p axis }
    ensures never_seven { NeverSeven (index_of mesh.now h starts.now members.now boxes.now) (told result).refusal }
    ensures nothing_lost { (told result).refusal ≡ 0 → NothingLost (index_of mesh.now h starts.now members.now boxes.now) p axis (told result) }
{
    refusal(mesh, h, starts, members, boxes, marks, p)?;
    work(
        mesh, h, starts, members, boxes, marks, levels, runs, p, axis,
    )
}

// Refusals 1, 23, 9 and 7.
#[tactic(auto, using(rules::proofs::Ladder::ladder), unfolding(crate::specs::Plan::refusal_of_input, refusals::specs::Numbers::code_of, refusals::specs::Numbers::number_of))]
fn refusal(
    mesh: &[f64],
    h: Header,
    starts: &[u32],
    members: &[u32],
    boxes: &[f64],
    marks: &[u32],
    p: Parameters,
) -> Result<(), Refusal>
    ensures { code_of result ≡ refusal_of_input (index_of mesh.now h starts.now members.now boxes.now) marks.now p }
{
    if !query::is_marked(mesh, marks) {
        return Err(Refusal::Length);
    }
    if !grid::is_boxed(mesh, boxes) {
        return Err(Refusal::Boxes);
    }
    if !parameters::are_terms(p, h.r, h.floor) {
        return Err(Refusal::Parameter);
    }
    if !whole::usable_whole(mesh, h, starts, members, boxes) {
        return Err(Refusal::Index);
    }
    Ok(())
}

// The plan where 1, 23, 9 and 7 let it pass.
fn work(
    mesh: &[f64],
    h: Header,
    starts: &[u32],
    members: &[u32],
    boxes: &[f64],
    marks: &mut [u32],
    levels: &mut [f64],
    runs: &mut [f64],
    p: Parameters,
    axis: Axis,
) -> Result<Planned, Refusal>
    requires { Ready (index_of mesh.now h starts.now members.now boxes.now) marks.old }
    ensures { outcome (told result) levels.new runs.new marks.new
        ≡ worked_of (index_of mesh.now h starts.now members.now boxes.now) marks.old levels.old
        runs.old p axis }
{
    zero(levels, runs);
    match survey(mesh, boxes, marks, levels, p, axis, h.r, h.floor) {
        Ok(count) => finish(
            mesh, h, starts, members, boxes, marks, levels, runs, p, axis, count,
        ),
        Err(refusal) => give_up(levels, runs, refusal),
    }
}

// The levels that stand in their table searched, from a table of runs and marks that are zero.
fn finish(
    mesh: &[f64],
    h: Header,
    starts: &[u32],
    members: &[u32],
    boxes: &[f64],
    marks: &mut [u32],
    levels: &mut [f64],
    runs: &mut [f64],
    p: Parameters,
    axis: Axis,
    count: usize,
) -> Result<Planned, Refusal>
    requires { Askable (index_of mesh.now h starts.now members.now boxes.now) × Marked h.n 0 marks.old × (count * 5 ≤ length levels.old)
        × (count ≤ 65536) × (any_of (too_fine p axis h.r) (levels_in levels.old 0 count) ≡ false) }
    ensures { (settled (told result) levels.new runs.new
        ≡ finished_of levels.old runs.old count
        (found_on (index_of mesh.now h starts.now members.now boxes.now) p axis (levels_in levels.old 0 count)))
        × (marks.new ≡ replicate h.n 0) }
{
    let y = search::search_levels(
        mesh, h, starts, members, boxes, marks, runs, p, axis, levels, count,
    );
    walk::wipe(marks);
    settle(levels, runs, count, y)
}

// Both tables become zero.
fn zero(levels: &mut [f64], runs: &mut [f64])
    ensures { (levels.new ≡ zeroed levels.old) × (runs.new ≡ zeroed runs.old) }
{
    fives::clear(levels);
    fives::clear(runs);
}

// The levels written to their table, and the marks, which the sort works in, wiped.
fn survey(
    mesh: &[f64],
    boxes: &[f64],
    marks: &mut [u32],
    levels: &mut [f64],
    p: Parameters,
    axis: Axis,
    r: f64,
    floor: f64,
) -> Result<usize, Refusal>
    requires { (length mesh.now ≡ length marks.old * 9) × (length marks.old ≤ 65536) × (length boxes.now ≡ length marks.old * 5) }
    ensures { Surveys
        (levels_of mesh.now boxes.now (length marks.old) p.tolerance p.level_tolerance floor) p axis r
        levels.old marks.old levels.new marks.new result }
{
    let count = levels::find_levels(
        mesh,
        boxes,
        marks,
        p.tolerance,
        p.level_tolerance,
        floor,
        levels,
    );
    walk::wipe(marks);
    parameters::refusal_of_levels(levels, count, p, axis, r)?;
    Ok(count)
}

// A late refusal: both tables become zero.
#[tactic(auto, unfolding(crate::specs::Plan::told))]
fn give_up(levels: &mut [f64], runs: &mut [f64], refusal: Refusal) -> Result<Planned, Refusal>
    ensures { settled (told result) levels.new runs.new ≡ given_up (number_of refusal) levels.old runs.old }
{
    zero(levels, runs);
    Err(refusal)
}

// Refusal 13, or the answer.
#[tactic(auto, unfolding(crate::specs::Plan::told, crate::specs::Inside::settled_of, refusals::specs::Numbers::number_of))]
fn settle(
    levels: &mut [f64],
    runs: &mut [f64],
    count: usize,
    y: Counted,
) -> Result<Planned, Refusal>
    ensures { settled (told result) levels.new runs.new ≡ settled_of levels.old runs.old count y }
{
    let tally = y.tally;
    if runs.len() / 5 < tally.count {
        return give_up(levels, runs, Refusal::Runs);
    }
    Ok(Planned {
        levels: count,
        rows: y.rows,
        runs: tally.count,
        cut: tally.cut,
        dropped: tally.dropped,
    })
}
