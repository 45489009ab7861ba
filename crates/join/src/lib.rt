// Joining as an operation of its own: each run of a lent table that touches the one before it becomes part of it. The plan joins by the same function.
#![tactic(auto)]

ghost use Rattle.std.specs.Prelude.{◌≡◌, map, ◌++◌, ◌+◌, ◌*◌, ◌≤◌, length, take, drop};
ghost use Rattle.fives.specs.Tables.{written, zeroed};
ghost use Rattle.runs.specs.Runs.{joined_of, five_of};
ghost use Rattle.refusals.specs.Numbers.{code_of};
ghost use Rattle.join.specs.Join.{refusal_of, run_in, runs_of, told, outcome, join_of};
ghost use Rattle.join.specs.Law.{WheneverJoined, HandedOn};

use refusals::Refusal;
use runs::Run;

// The runs of a table joined in place: they stand first, zeros after, and their number is answered. Refusal 1 or 2 changes nothing.
pub fn join(runs: &mut [f64]) -> Result<usize, Refusal>
    ensures runs_after { outcome (told result) runs.new ≡ join_of runs.old }
    ensures handed_on { HandedOn runs.old (outcome (told result) runs.new) }
    ensures whenever_joined { WheneverJoined }
{
    refusal(runs)?;
    let count = join_all(runs);
    clear_behind(runs, count);
    Ok(count)
}

// Refusals 1 and 2.
#[tactic(auto, using(rules::proofs::Ladder::ladder), unfolding(crate::specs::Join::refusal_of, refusals::specs::Numbers::code_of, refusals::specs::Numbers::number_of))]
fn refusal(runs: &[f64]) -> Result<(), Refusal>
    ensures { code_of result ≡ refusal_of runs.now }
{
    if runs.len() % 5 != 0 {
        return Err(Refusal::Length);
    }
    if !fields::all_finite(runs) {
        return Err(Refusal::Number);
    }
    Ok(())
}

// The runs of a table taken one after the other, and written over those that were taken before. Their number comes back.
fn join_all(runs: &mut [f64]) -> usize
    ensures { (runs.new ≡ written (map five_of (joined_of (runs_of runs.old))) runs.old)
        × (result ≡ length (joined_of (runs_of runs.old))) }
{
    let mut y = runs::begin();
    // by index: the joined runs are written over the front of the table while the others are read
    for m in 0..runs.len() / 5 {
        y = runs::take(runs, y, run_at(runs, m), true);
    }
    let all = runs::close(runs, y);
    all.count
}

// Run m of a table.
pub fn run_at(runs: &[f64], m: usize) -> Run
    requires { m * 5 + 5 ≤ length runs.now }
    ensures { result ≡ run_in runs.now m }
{
    let at = m * 5;
    Run {
        ax: runs[at],
        ay: runs[at + 1],
        bx: runs[at + 2],
        by: runs[at + 3],
        z: runs[at + 4],
    }
}

// The numbers behind the first n runs become 0.
fn clear_behind(runs: &mut [f64], n: usize)
    requires { n * 5 ≤ length runs.old }
    ensures { runs.new ≡ take (n * 5) runs.old ++ zeroed (drop (n * 5) runs.old) }
{
    let at = n * 5;
    fives::clear(&mut runs[at..]);
}
