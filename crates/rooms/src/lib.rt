// What a build of a mesh needs: how many starts and how many members.
#![tactic(auto)]

ghost use Rattle.std.specs.Prelude.{◌≡◌};
ghost use Rattle.refusals.specs.Numbers.{code_of};
ghost use Rattle.grid.specs.Build.{refusal_of_grid};
ghost use Rattle.grid.specs.Inside.{Gridded};
ghost use Rattle.rooms.specs.Rooms.{told, refusal_of, rooms_in, rooms_of, RoomsPromise};

use grid::Grid;
use refusals::Refusal;

// How many starts and how many members.
#[derive(Clone, Copy)]
pub struct Rooms {
    pub starts: usize,
    pub members: usize,
}

// The rooms that a build of this mesh needs.
pub fn needed(mesh: &[f64], floor: f64, r: f64) -> Result<Rooms, Refusal>
    ensures value { told result ≡ rooms_of mesh.now floor r }
    ensures rooms_promise { RoomsPromise mesh.now floor r (told result) }
{
    refusal(mesh, floor, r)?;
    let n = mesh.len() / 9;
    let g = grid::grid_of(mesh, n, r);
    in_grid(mesh, n, g)
}

// Refusals 1, 3, 2 and 4.
#[tactic(auto, using(rules::proofs::Ladder::ladder), unfolding(crate::specs::Rooms::refusal_of, refusals::specs::Numbers::code_of, refusals::specs::Numbers::number_of))]
fn refusal(mesh: &[f64], floor: f64, r: f64) -> Result<(), Refusal>
    ensures { code_of result ≡ refusal_of mesh.now floor r }
{
    if mesh.len() % 9 != 0 {
        return Err(Refusal::Length);
    }
    let n = mesh.len() / 9;
    if rules::MOST < n {
        return Err(Refusal::Length);
    }
    if n == 0 {
        return Err(Refusal::Empty);
    }
    grid::refusal_of_numbers(mesh, floor, r)
}

// The rooms of n triangles under a grid, or the fixed limits of refusals 5 and 6.
fn in_grid(mesh: &[f64], n: usize, g: Grid) -> Result<Rooms, Refusal>
    requires { refusal_of_grid g.columns g.rows 1048577 ≡ 0 → Gridded mesh.now n g }
    ensures { told result ≡ rooms_in mesh.now n g }
{
    let columns = g.columns;
    let rows = g.rows;
    grid::refusal_of_grid(columns, rows, 1048577)?;
    let members = grid::total(mesh, n, g);
    grid::refusal_of_members(members, 16777216)?;
    Ok(Rooms {
        starts: rows * columns + 1,
        members,
    })
}
