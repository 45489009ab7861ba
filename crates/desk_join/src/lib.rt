// What C and Rust call to join runs: include/mandrikelo.h declares this function. It hands its table to the library and lays the number
// of runs into a fixed array; the contract is the library's own, and asks nothing of the caller.
#![tactic(auto)]

ghost use Rattle.std.specs.Prelude.{◌≡◌};
ghost use Rattle.join.specs.Join.{outcome, join_of};
ghost use Rattle.join.specs.Law.{WheneverJoined, HandedOn};
ghost use Rattle.desk_join.specs.Joins.{join_left, join_left_by, joined_from};

// Joins the runs of a table in place: they stand first, zeros after; count gets their number.
#[unsafe(no_mangle)]
pub extern "C" fn mandrikelo_join(runs: &mut [f64], count: &mut [usize; 1]) -> u32
    ensures count_after { join_left result runs.new count.new ≡ join_left_by (join_of runs.old) }
    ensures handed_on { HandedOn runs.old (outcome (joined_from result count.new) runs.new) }
    ensures whenever_joined { WheneverJoined }
{
    let joined = join::join(runs);
    let n = joined.unwrap_or(0);
    let refusal = refusals::code_of(&joined);
    *count = [n];
    refusal
}
