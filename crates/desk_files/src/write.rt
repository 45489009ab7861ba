// Jobs that are written.
ghost use Rattle.std.specs.Prelude.{◌≡◌, length};
ghost use Rattle.writer.specs.Writer.{write_of};
ghost use Rattle.writer.specs.Back.{ReadsBack, WritesAgain};
ghost use Rattle.desk_files.specs.Writes.{written_left, written_left_by, written_from};

// Writes a job into the lent bytes; size gets the number of its bytes.
#[tactic(auto, unfolding(crate::specs::Writes::written_left_by))]
#[unsafe(no_mangle)]
pub extern "C" fn mandrikelo_write_job(
    mesh: &[f64],
    floor: f64,
    radius: f64,
    questions: &[f64],
    bytes: &mut [u8],
    size: &mut [usize; 1],
) -> u32
    ensures size_after { written_left result bytes.new size.new
        ≡ written_left_by (write_of mesh.now floor radius questions.now bytes.old) }
    ensures reads_back { ReadsBack mesh.now floor radius questions.now (written_from result bytes.new size.new) }
    ensures writes_again { WritesAgain mesh.now floor radius questions.now (length bytes.old)
        (written_from result bytes.new size.new) }
{
    match writer::write_job(mesh, floor, radius, questions, bytes) {
        Ok(length) => {
            *size = [length];
            0
        }
        Err(refusal) => {
            *size = [0];
            refusal.number()
        }
    }
}
