// What C and Rust call before an index is built and before one is trusted: include/mandrikelo.h declares these functions. Each hands its arguments to the
// library; the contract is the library's own, and asks nothing of the caller.
#![tactic(auto)]

ghost use Rattle.std.specs.Prelude.{◌≡◌};
ghost use Rattle.handed.specs.Handed.{index_from};
ghost use Rattle.rooms.specs.Rooms.{rooms_of, RoomsPromise};
ghost use Rattle.checked.specs.Check.{CheckPromise};
ghost use Rattle.desk_index.specs.Rooms.{rooms_from};

// How many starts and members a build of this mesh needs.
#[unsafe(no_mangle)]
pub extern "C" fn mandrikelo_rooms(mesh: &[f64], floor: f64, r: f64, rooms: &mut [usize; 2]) -> u32
    ensures rooms_after { rooms_from result rooms.new ≡ rooms_of mesh.now floor r }
    ensures rooms_promise { RoomsPromise mesh.now floor r (rooms_from result rooms.new) }
{
    match rooms::needed(mesh, floor, r) {
        Ok(q) => {
            *rooms = [q.starts, q.members];
            0
        }
        Err(refusal) => {
            *rooms = [0, 0];
            refusal.number()
        }
    }
}

// Whether header and tables are the index of this mesh.
#[unsafe(no_mangle)]
pub extern "C" fn mandrikelo_check_index(
    mesh: &[f64],
    measures: &[f64; 6],
    sizes: &[u32; 3],
    starts: &[u32],
    members: &[u32],
    boxes: &[f64],
) -> u32
    ensures { CheckPromise (index_from mesh.now measures.now sizes.now
        starts.now members.now boxes.now) result }
{
    refusals::code_of(&checked::check_index(
        mesh,
        handed::header_from(measures, sizes),
        starts,
        members,
        boxes,
    ))
}
