// Raising a part: one amount is added to every z of its mesh, and its index stays an index.
#![tactic(auto)]

ghost use Rattle.std.specs.Prelude.{◌≡◌, ◌*◌, ◌≤◌, length};
ghost use Rattle.spans.specs.Mesh.{first_bad};
ghost use Rattle.spans.specs.Inside.{AllGood};
ghost use Rattle.refusals.specs.Numbers.{code_of, told_in};
ghost use Rattle.grid.specs.Build.{is_nowhere, told, told_with};
ghost use Rattle.raise.specs.Raise.{lifted_at, lifted, topped_of, raised_header, refusal_of_index, refusal_of, left, raise_of, RaisePromise};

use grid::Header;
use refusals::Refusal;

// Adds the amount to every z of the mesh, puts the new high z of each triangle into its box, and answers the new header. A refused call changes nothing; 4
// tells which number of the raised mesh would leave its range first.
pub fn raise(mesh: &mut [f64], boxes: &mut [f64], h: Header, amount: f64) -> Result<Header, Refusal>
    ensures boxes_after { left (told result) mesh.new boxes.new ≡ raise_of mesh.old boxes.old h amount }
    ensures raise_promise { RaisePromise mesh.old boxes.old h mesh.new boxes.new (told result) }
{
    refusal(mesh, boxes, h, amount)?;
    lift(mesh, amount);
    top_all(mesh, h.n, boxes);
    Ok(header_of(mesh, h))
}

// Refusals 1, 23 and 2.
#[tactic(auto, using(rules::proofs::Ladder::ladder), unfolding(crate::specs::Raise::refusal_of, grid::specs::Build::told_with, refusals::specs::Numbers::code_of, refusals::specs::Numbers::told_in, refusals::specs::Numbers::number_of, refusals::specs::Numbers::told_of))]
fn refusal(mesh: &[f64], boxes: &[f64], h: Header, amount: f64) -> Result<(), Refusal>
    ensures code { code_of result ≡ refusal_of mesh.now boxes.now h amount }
    ensures place { told_in result ≡ told_with (code_of result) (lifted amount mesh.now) }
{
    if mesh.len() % 9 != 0 {
        return Err(Refusal::Length);
    }
    if rules::MOST < mesh.len() / 9 {
        return Err(Refusal::Length);
    }
    if !grid::is_boxed(mesh, boxes) {
        return Err(Refusal::Boxes);
    }
    if !plane::is_coordinate(amount) {
        return Err(Refusal::Number);
    }
    refusal_of_index(mesh, h, amount)
}

// Refusals 7 and 4.
#[tactic(auto, using(rules::proofs::Ladder::ladder, crate::proofs::Lifting::high_fits), unfolding(crate::specs::Raise::refusal_of_index, grid::specs::Build::told_with, refusals::specs::Numbers::code_of, refusals::specs::Numbers::told_in, refusals::specs::Numbers::number_of, refusals::specs::Numbers::told_of, grid::specs::Build::is_nowhere, grid::specs::Build::place_of))]
fn refusal_of_index(mesh: &[f64], h: Header, amount: f64) -> Result<(), Refusal>
    requires { length mesh.now ≤ 589824 }
    ensures code { code_of result ≡ refusal_of_index mesh.now h amount }
    ensures place { told_in result ≡ told_with (code_of result) (lifted amount mesh.now) }
{
    if !header::in_ranges(h) {
        return Err(Refusal::Index);
    }
    if mesh.len() != h.n * 9 {
        return Err(Refusal::Index);
    }
    if !all_good(mesh) {
        return Err(Refusal::Index);
    }
    match first_high(mesh, amount) {
        None => Ok(()),
        Some(k) => Err(Refusal::Coordinate(k as u32)),
    }
}

// Whether every number of a mesh is a coordinate.
fn all_good(mesh: &[f64]) -> bool
    ensures { result ≡ is_nowhere (first_bad mesh.now) }
{
    spans::first_bad(mesh).is_none()
}

// The first number of the raised mesh that is no coordinate.
fn first_high(mesh: &[f64], amount: f64) -> Option<usize>
    ensures { result ≡ first_bad (lifted amount mesh.now) }
{
    for (k, x) in mesh.iter().enumerate() {
        if !plane::is_coordinate(lifted_at(amount, k, *x)) {
            return Some(k);
        }
    }
    None
}

// Number k of a mesh, raised where it is a z.
fn lifted_at(amount: f64, k: usize, x: f64) -> f64
    ensures { result ≡ lifted_at amount k x }
{
    if k % 3 == 2 {
        return x + amount;
    }
    x
}

// Every z of a mesh raised.
fn lift(mesh: &mut [f64], amount: f64)
    ensures { mesh.new ≡ lifted amount mesh.old }
{
    // by index: the place of a number tells whether it is a z
    for k in 0..mesh.len() {
        mesh[k] = lifted_at(amount, k, mesh[k]);
    }
}

// The high z of each of n triangles, put into its box.
fn top_all(mesh: &[f64], n: usize, boxes: &mut [f64])
    requires { (n * 9 ≤ length mesh.now) × (length boxes.old ≡ n * 5) }
    ensures { boxes.new ≡ topped_of mesh.now boxes.old n }
{
    // by index: triangle i is nine numbers of one table and five of the other
    for i in 0..n {
        let b = grid::box_at(boxes, i);
        let z = plane::top(plane::triangle_at(mesh, i));
        fives::put(boxes, i, b.low_x, b.low_y, b.high_x, b.high_y, z);
    }
}

// The header with the eps of a mesh.
fn header_of(mesh: &[f64], h: Header) -> Header
    requires n_in_bounds { h.n * 9 ≤ length mesh.now }
    requires all_good { AllGood mesh.now }
    ensures { result ≡ raised_header mesh.now h }
{
    let eps = spans::eps(mesh, h.n);
    Header {
        n: h.n,
        origin_x: h.origin_x,
        origin_y: h.origin_y,
        cell: h.cell,
        columns: h.columns,
        rows: h.rows,
        floor: h.floor,
        eps,
        r: h.r,
    }
}
