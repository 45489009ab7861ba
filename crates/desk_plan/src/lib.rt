// What C and Rust call of the plan: include/mandrikelo.h declares the function. It hands its arguments to the library and lays the answer into fixed
// arrays; the contract is the library's own, and asks nothing of the caller.
#![tactic(auto)]

ghost use Rattle.std.specs.Prelude.{◌≡◌};
ghost use Rattle.handed.specs.Handed.{index_from};
ghost use Rattle.grid.specs.Boxes.{is_boxed};
ghost use Rattle.grid.specs.Index.{index_of};
ghost use Rattle.rules.specs.Ladder.{demand};
ghost use Rattle.query.specs.Asked.{is_marked};
ghost use Rattle.refusals.specs.Numbers.{number_of};
ghost use Rattle.plan.specs.Plan.{told, outcome, NeverSeven};
ghost use Rattle.plan.specs.Lost.{NothingLost};
ghost use Rattle.desk_plan.specs.Plans.{parameters_from, axis_from, plan_along, narrowed, plan_left, plan_left_by, planned_from};

use grid::Header;
use parameters::Parameters;
use plan::Planned;
use refusals::Refusal;
use rows::Axis;

// The plan's parameters from their seven numbers.
#[tactic(auto, unfolding(crate::specs::Plans::parameters_from))]
fn parameters_from(numbers: &[f64; 7]) -> Parameters
    ensures { result ≡ parameters_from numbers.now }
{
    Parameters {
        tolerance: numbers[0],
        level_tolerance: numbers[1],
        stepover: numbers[2],
        stock_to_leave: numbers[3],
        stock_bottom: numbers[4],
        stock_top: numbers[5],
        cutting_length: numbers[6],
    }
}

// A count as C gets it.
fn narrow(n: usize) -> u32
    ensures { result ≡ narrowed n }
{
    if n <= 4294967295 {
        n as u32
    } else {
        4294967295
    }
}

// The refusal of an axis that is neither X nor Y: 9, unless 1 or 23 comes first.
#[tactic(auto, using(rules::proofs::Ladder::ladder), unfolding(refusals::specs::Numbers::number_of))]
fn no_axis(mesh: &[f64], boxes: &[f64], marks: &[u32]) -> Refusal
    ensures { number_of result
        ≡ demand (is_marked mesh.now marks.now) 1 (demand (is_boxed mesh.now boxes.now) 23 9) }
{
    if !query::is_marked(mesh, marks) {
        return Refusal::Length;
    }
    if !grid::is_boxed(mesh, boxes) {
        return Refusal::Boxes;
    }
    Refusal::Parameter
}

// The plan along the axis of that number.
fn plan_along(
    mesh: &[f64],
    h: Header,
    starts: &[u32],
    members: &[u32],
    boxes: &[f64],
    marks: &mut [u32],
    levels: &mut [f64],
    runs: &mut [f64],
    p: Parameters,
    axis: u32,
) -> Result<Planned, Refusal>
    ensures marks_after { outcome (told result) levels.new runs.new marks.new
        ≡ plan_along (index_of mesh.now h starts.now members.now boxes.now)
        marks.old levels.old runs.old p axis }
    ensures nothing_lost { (told result).refusal ≡ 0 → NothingLost (index_of mesh.now h starts.now members.now boxes.now)
        p (axis_from axis) (told result) }
{
    if axis == 0 {
        return plan::plan(
            mesh,
            h,
            starts,
            members,
            boxes,
            marks,
            levels,
            runs,
            p,
            Axis::X,
        );
    }
    if axis == 1 {
        return plan::plan(
            mesh,
            h,
            starts,
            members,
            boxes,
            marks,
            levels,
            runs,
            p,
            Axis::Y,
        );
    }
    Err(no_axis(mesh, boxes, marks))
}

// The flat runs of a mesh: levels and runs get their tables, lengths the cut and the dropped length, counts the numbers of levels, rows
// and runs.
#[unsafe(no_mangle)]
pub extern "C" fn mandrikelo_plan(
    mesh: &[f64],
    measures: &[f64; 6],
    sizes: &[u32; 3],
    starts: &[u32],
    members: &[u32],
    boxes: &[f64],
    marks: &mut [u32],
    parameters: &[f64; 7],
    axis: u32,
    levels: &mut [f64],
    runs: &mut [f64],
    lengths: &mut [f64; 2],
    counts: &mut [u32; 3],
) -> u32
    ensures counts_after { plan_left result levels.new runs.new marks.new lengths.new counts.new
        ≡ plan_left_by (plan_along
        (index_from mesh.now measures.now sizes.now starts.now members.now
        boxes.now)
        marks.old levels.old runs.old (parameters_from parameters.now) axis) }
    ensures never_seven { NeverSeven
        (index_from mesh.now measures.now sizes.now starts.now members.now
        boxes.now) result }
    ensures nothing_lost { result ≡ 0 → NothingLost
        (index_from mesh.now measures.now sizes.now starts.now members.now
        boxes.now)
        (parameters_from parameters.now) (axis_from axis) (planned_from result lengths.new counts.new) }
{
    let h = handed::header_from(measures, sizes);
    let p = parameters_from(parameters);
    let planned = plan_along(
        mesh, h, starts, members, boxes, marks, levels, runs, p, axis,
    );
    match planned {
        Ok(a) => {
            let level_count = narrow(a.levels);
            let row_count = narrow(a.rows);
            let run_count = narrow(a.runs);
            *lengths = [a.cut, a.dropped];
            *counts = [level_count, row_count, run_count];
            0
        }
        Err(refusal) => {
            *lengths = [0.0, 0.0];
            *counts = [0, 0, 0];
            refusal.number()
        }
    }
}
