// What the doors share: a header as C hands it over.
#![tactic(auto)]

ghost use Rattle.std.specs.Prelude.{◌≡◌};
ghost use Rattle.handed.specs.Handed.{header_from};

use grid::Header;

// A size from C, as the header has it.
fn wide(x: u32) -> usize
    ensures { result ≡ x }
{
    x as usize
}

// The header that C hands over in two arrays.
pub fn header_from(measures: &[f64; 6], sizes: &[u32; 3]) -> Header
    ensures { result ≡ header_from measures.now sizes.now }
{
    Header {
        n: wide(sizes[0]),
        origin_x: measures[0],
        origin_y: measures[1],
        cell: measures[2],
        columns: wide(sizes[1]),
        rows: wide(sizes[2]),
        floor: measures[3],
        eps: measures[4],
        r: measures[5],
    }
}
