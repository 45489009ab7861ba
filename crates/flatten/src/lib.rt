// A lent slice of sections as a flat table of four numbers each.
#![tactic(auto)]

ghost use Rattle.std.specs.Prelude.{◌≡◌, ◌+◌, ◌≤◌, ◌<◌, length, take};
ghost use Rattle.flatten.specs.Flat.{flat_of, section_in, copied_of, held_in, Emptied, Pushed};

use section::Section;

// The numbers of up to 32 sections: the first `count` entries.
#[derive(Clone, Copy)]
pub struct Table {
    pub numbers: [f64; 128],
    pub count: usize,
}

// The numbers of up to 32 sections; none of a longer slice.
pub fn flat(sections: &[Section]) -> Table
    ensures { (result.count ≤ length result.numbers) × (held_in result ≡ flat_of (take (copied_of (length sections.now)) sections.now)) }
{
    let n = copied(sections.len());
    let mut t = empty();
    let mut i: usize = 0;
    while i < n {
        let s = at(sections, i);
        t = push(t, s);
        i += 1;
    }
    t
}

// Section i of a slice.
pub fn at(sections: &[Section], i: usize) -> Section
    requires { i < length sections.now }
    ensures { result ≡ section_in sections.now i }
{
    sections[i]
}

// How many of n sections are copied.
fn copied(n: usize) -> usize
    ensures { result ≡ copied_of n }
{
    if n <= 32 {
        return n;
    }
    0
}

// A table that holds nothing.
fn empty() -> Table
    ensures { Emptied result }
{
    Table {
        numbers: [0.0; 128],
        count: 0,
    }
}

// The table with the numbers of one section more.
fn push(t: Table, s: Section) -> Table
    requires { (length t.numbers ≡ 128) × (t.count + 4 ≤ 128) }
    ensures { Pushed t s result }
{
    let mut numbers = t.numbers;
    let k = t.count;
    numbers[k] = s.z0;
    numbers[k + 1] = s.r0;
    numbers[k + 2] = s.r1;
    numbers[k + 3] = s.rise;
    Table {
        numbers,
        count: k + 4,
    }
}
