// The proved examples of document 01, as a contract: the check computes each over the definitions.
#![tactic(auto)]

ghost use Rattle.std.specs.Prelude.{◌≡◌, length};
ghost use Rattle.claims.specs.Examples.{examples, AllGive};

// How many examples the table has, each of which gives what document 01 says.
pub fn proved_examples() -> usize
    ensures { (result ≡ length examples) × AllGive }
{
    9
}
