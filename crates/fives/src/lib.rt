// Lent tables of five numbers an entry: what levels and runs are written to.
#![tactic(auto)]

ghost use Rattle.std.specs.Prelude.{◌≡◌, ◌∷◌, []};
ghost use Rattle.fives.specs.Tables.{put_at, zeroed};

// Five numbers put as entry m, where there is room for it; the rest of the table stays.
pub fn put(table: &mut [f64], m: usize, a: f64, b: f64, c: f64, d: f64, e: f64)
    ensures { table.new ≡ put_at table.old m (a ∷ b ∷ c ∷ d ∷ e ∷ []) }
{
    if table.len() / 5 <= m {
        return;
    }
    let at = m * 5;
    table[at] = a;
    table[at + 1] = b;
    table[at + 2] = c;
    table[at + 3] = d;
    table[at + 4] = e;
}

// Every number of a table becomes 0.
pub fn clear(table: &mut [f64])
    ensures { table.new ≡ zeroed table.old }
{
    table.fill(0.0);
}
