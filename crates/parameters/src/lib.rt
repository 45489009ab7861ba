// A plan's terms: its parameters, and what its levels must be.
#![tactic(auto)]

ghost use Rattle.std.specs.Prelude.{◌≡◌, ◌*◌, ◌≤◌, length};
ghost use Rattle.refusals.specs.Numbers.{code_of};
ghost use Rattle.parameters.specs.Terms.{are_three, are_numbers, are_steps, are_heights, are_terms, too_deep, too_fine, any_of};
ghost use Rattle.parameters.specs.Inside.{levels_in, refusal_of_count};

use levels::Level;
use refusals::Refusal;
use rows::Axis;

const COARSEST: f64 = 0.01;

const FINEST: f64 = 1e-7;

const TENTH: f64 = 0.1;

// What a plan asks for.
#[derive(Clone, Copy)]
pub struct Parameters {
    pub tolerance: f64,
    pub level_tolerance: f64,
    pub stepover: f64,
    pub stock_to_leave: f64,
    pub stock_bottom: f64,
    pub stock_top: f64,
    pub cutting_length: f64,
}

// Whether a plan's parameters are in order.
#[tactic(auto, unfolding(crate::specs::Terms::are_terms))]
pub fn are_terms(p: Parameters, r: f64, floor: f64) -> bool
    ensures { result ≡ are_terms p r floor }
{
    are_numbers(p) && (are_steps(p, r) && are_heights(p, floor))
}

// Whether all numbers are finite, with magnitude at most 1e6.
#[tactic(auto, unfolding(crate::specs::Terms::are_numbers))]
fn are_numbers(p: Parameters) -> bool
    ensures { result ≡ are_numbers p }
{
    are_three(p.tolerance, p.level_tolerance, p.stepover)
        && (plane::is_coordinate(p.stock_to_leave)
            && are_three(p.stock_bottom, p.stock_top, p.cutting_length))
}

// The same of three numbers.
#[tactic(auto, unfolding(crate::specs::Terms::are_three))]
pub fn are_three(a: f64, b: f64, c: f64) -> bool
    ensures { result ≡ are_three a b c }
{
    plane::is_coordinate(a) && (plane::is_coordinate(b) && plane::is_coordinate(c))
}

// Whether tolerance and stepover are in their ranges.
#[tactic(auto, unfolding(crate::specs::Terms::are_steps))]
fn are_steps(p: Parameters, r: f64) -> bool
    ensures { result ≡ are_steps p r }
{
    let tolerance = p.tolerance;
    let stepover = p.stepover;
    FINEST <= tolerance
        && (tolerance <= COARSEST && (16.0 * tolerance < stepover && stepover <= 2.0 * r))
}

// Whether stock to leave, level tolerance and stock are in their ranges.
#[tactic(auto, unfolding(crate::specs::Terms::are_heights))]
fn are_heights(p: Parameters, floor: f64) -> bool
    ensures { result ≡ are_heights p floor }
{
    let level_tolerance = p.level_tolerance;
    0.0 <= p.stock_to_leave
        && (p.tolerance <= level_tolerance
            && (level_tolerance <= TENTH && (p.stock_bottom <= floor && floor < p.stock_top)))
}

// Refusals 11, 10 and 12 of the first `count` levels of a table.
#[tactic(auto, using(rules::proofs::Ladder::ladder), unfolding(crate::specs::Inside::refusal_of_count, refusals::specs::Numbers::code_of, refusals::specs::Numbers::number_of))]
pub fn refusal_of_levels(
    levels: &[f64],
    count: usize,
    p: Parameters,
    axis: Axis,
    r: f64,
) -> Result<(), Refusal>
    ensures { code_of result ≡ refusal_of_count levels.now count p axis r }
{
    if levels.len() / 5 < count {
        return Err(Refusal::Levels);
    }
    if any_deep(levels, count, p) {
        return Err(Refusal::Depth);
    }
    if any_fine(levels, count, p, axis, r) {
        return Err(Refusal::Fine);
    }
    Ok(())
}

// Whether a level is above stock top or too deep under it.
#[tactic(auto, using(crate::proofs::Testing::any_starts, crate::proofs::Testing::any_holds, crate::proofs::Testing::any_goes, crate::proofs::Testing::any_end))]
fn any_deep(levels: &[f64], count: usize, p: Parameters) -> bool
    requires { count * 5 ≤ length levels.now }
    ensures { result ≡ any_of (too_deep p) (levels_in levels.now 0 count) }
{
    // by index: a level is five numbers of the table, which `level_at` reads by its place
    for m in 0..count {
        if too_deep(p, levels::level_at(levels, m)) {
            return true;
        }
    }
    false
}

// Whether a level has too many rows or samples.
#[tactic(auto, using(crate::proofs::Testing::any_starts, crate::proofs::Testing::any_holds, crate::proofs::Testing::any_goes, crate::proofs::Testing::any_end))]
fn any_fine(levels: &[f64], count: usize, p: Parameters, axis: Axis, r: f64) -> bool
    requires { count * 5 ≤ length levels.now }
    ensures { result ≡ any_of (too_fine p axis r) (levels_in levels.now 0 count) }
{
    // by index: a level is five numbers of the table, which `level_at` reads by its place
    for m in 0..count {
        if too_fine(p, axis, r, levels::level_at(levels, m)) {
            return true;
        }
    }
    false
}

// The same of one level.
#[tactic(auto, unfolding(crate::specs::Terms::too_deep))]
fn too_deep(p: Parameters, l: Level) -> bool
    ensures { result ≡ too_deep p l }
{
    let top = p.stock_top;
    if l.z > top {
        return true;
    }
    top - l.z > p.cutting_length - 16.0 * p.tolerance
}

// The same of one level.
#[tactic(auto, unfolding(crate::specs::Terms::too_fine))]
fn too_fine(p: Parameters, axis: Axis, r: f64, l: Level) -> bool
    ensures { result ≡ too_fine p axis r l }
{
    let s = rows::spread_of(axis, r, l);
    if rows::intervals(s, p.stepover) > 65535 {
        return true;
    }
    rows::samples(s, rows::step(p.stepover, r)) > 65535
}
