// What C and Rust call to raise a part: include/mandrikelo.h declares this function. It hands its arguments to the library and lays the answer into
// fixed arrays; the contract is the library's own, and asks nothing of the caller.
#![tactic(auto)]

ghost use Rattle.std.specs.Prelude.{◌≡◌};
ghost use Rattle.raise.specs.Raise.{raise_of, RaisePromise};
ghost use Rattle.handed.specs.Handed.{header_from};
ghost use Rattle.desk_raise.specs.Raising.{built_from, raised_left, raised_left_by};

// One amount added to every z of a mesh, with its boxes; raised and raised_sizes get the new header's measures and sizes; after 4 bad holds the
// triangle and which of its nine numbers came first, else 0 and 0.
#[unsafe(no_mangle)]
pub extern "C" fn mandrikelo_raise(
    mesh: &mut [f64],
    boxes: &mut [f64],
    measures: &[f64; 6],
    sizes: &[u32; 3],
    amount: f64,
    raised: &mut [f64; 6],
    raised_sizes: &mut [u32; 3],
    bad: &mut [u32; 2],
) -> u32
    ensures bad_after { raised_left result mesh.new boxes.new raised.new raised_sizes.new bad.new
        ≡ raised_left_by (raise_of mesh.old boxes.old (header_from measures.now sizes.now) amount) }
    ensures raise_promise { RaisePromise mesh.old boxes.old (header_from measures.now sizes.now)
        mesh.new boxes.new (built_from result raised.new raised_sizes.new bad.new) }
{
    match raise::raise(mesh, boxes, handed::header_from(measures, sizes), amount) {
        Ok(h) => {
            *raised = [h.origin_x, h.origin_y, h.cell, h.floor, h.eps, h.r];
            *raised_sizes = [sizes[0], sizes[1], sizes[2]];
            *bad = [0, 0];
            0
        }
        Err(refusal) => {
            let place = refusal.told();
            *raised = [0.0, 0.0, 0.0, 0.0, 0.0, 0.0];
            *raised_sizes = [0, 0, 0];
            *bad = [place / 9, place % 9];
            refusal.number()
        }
    }
}
