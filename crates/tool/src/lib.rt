// A tool: a flat table of sections, four numbers each.
#![tactic(auto)]

ghost use Rattle.std.specs.Prelude.{◌≡◌, ◌+◌, ◌*◌, ◌≤◌, length};
ghost use Rattle.rules.specs.Every.{is_from, every};
ghost use Rattle.section.specs.Section.{valid_section};
ghost use Rattle.tool.specs.Tool.{section_of, sections_in, is_tool, widest_of, lowest_of, raised_over, passes_all};

use plane::{Best, Bounds, Triangle};
use reach::Chord;
use section::Section;

// Section i of a table.
pub fn section_at(table: &[f64], i: usize) -> Section
    requires { 4 * i + 4 ≤ length table.now }
    ensures { result ≡ section_of table.now i }
{
    let k = 4 * i;
    Section {
        z0: table[k],
        r0: table[k + 1],
        r1: table[k + 2],
        rise: table[k + 3],
    }
}

// Whether a table is of one to 32 sections, all valid.
pub fn is_tool(table: &[f64]) -> bool
    ensures { result ≡ is_tool table.now }
{
    let n = table.len() / 4;
    table.len() % 4 == 0 && (few(n) && all_valid(table))
}

// Whether n is from 1 to 32.
fn few(n: usize) -> bool
    ensures { result ≡ is_from 1 32 n }
{
    1 <= n && n <= 32
}

// Whether every section is valid.
fn all_valid(table: &[f64]) -> bool
    ensures { result ≡ every (λ i. valid_section (section_of table.now i)) 0 (sections_in table.now) }
{
    let n = table.len() / 4;
    for i in 0..n {
        if !section::valid(section_at(table, i)) {
            return false;
        }
    }
    true
}

// The largest r1, and at least 0.
pub fn widest(table: &[f64]) -> f64
    ensures { result ≡ widest_of table.now (sections_in table.now) }
{
    let n = table.len() / 4;
    let mut reach = 0.0;
    for i in 0..n {
        let s = section_at(table, i);
        reach = numbers::max(reach, s.r1);
    }
    reach
}

// The lowest z0.
pub fn lowest(table: &[f64]) -> f64
    ensures { result ≡ lowest_of table.now (sections_in table.now) }
{
    let n = table.len() / 4;
    let mut low = 1.0 / 0.0;
    for i in 0..n {
        let s = section_at(table, i);
        low = numbers::min(low, s.z0);
    }
    low
}

// The best so far with the contacts of all sections on triangle k.
pub fn raise_over(t: Triangle, k: u32, x: f64, y: f64, table: &[f64], best: Best) -> Best
    ensures { result ≡ raised_over t k x y table.now best (sections_in table.now) }
{
    let n = table.len() / 4;
    let mut high = best;
    for i in 0..n {
        let on = above::so_far(high.height);
        high = plane::raise_by(
            section::section_contact_on(t, x, y, section_at(table, i), on),
            k,
            high,
        );
    }
    high
}

// Whether a triangle with the box b blocks none of the sections on a chord.
pub fn passes_all(t: Triangle, b: Bounds, m: Chord, table: &[f64]) -> bool
    ensures { result ≡ passes_all t b m table.now }
{
    let n = table.len() / 4;
    for i in 0..n {
        if section_gap::section_blocks(t, b, m, section_at(table, i)) {
            return false;
        }
    }
    true
}
