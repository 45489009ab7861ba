// Binary STL files.
ghost use Rattle.std.specs.Prelude.{◌≡◌, List, ℕ, ◌/◌, length};
ghost use Rattle.stl.specs.Reader.{read_of, SoundExactly, NeverTakenForAPart};
ghost use Rattle.stl.specs.Alike.{Alike};
ghost use Rattle.desk_files.specs.Stl.{stl_left, stl_left_by};

// Reads an STL file into the lent mesh; count gets the triangles read, after 19 those that stand whole before the cut.
#[tactic(auto, unfolding(crate::specs::Stl::stl_left_by))]
#[unsafe(no_mangle)]
pub extern "C" fn mandrikelo_read_stl(bytes: &[u8], mesh: &mut [f64], count: &mut [u32; 1]) -> u32
    ensures count_after { stl_left result mesh.new count.new ≡ stl_left_by (read_of bytes.now mesh.old) }
    ensures sound_exactly { SoundExactly bytes.now (length mesh.old / 9) result }
    ensures never_taken_for_apart { result ≡ 0 → NeverTakenForAPart bytes.now mesh.old }
    ensures by_index { (other : List ℕ) → Alike bytes.now other
        → stl_left result mesh.new count.new ≡ stl_left_by (read_of other mesh.old) }
{
    match stl::read_stl(bytes, mesh) {
        Ok(n) => {
            *count = [n];
            0
        }
        Err(refusal) => {
            *count = [refusal.told()];
            refusal.number()
        }
    }
}
