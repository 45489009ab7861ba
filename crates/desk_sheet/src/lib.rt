// What C and Rust call of the tool sheet: include/mandrikelo.h declares this function. It hands its arguments to the library and lays
// the count into a fixed array; the contract is the library's own, and asks nothing of the caller.
#![tactic(auto)]

ghost use Rattle.std.specs.Prelude.{true, ◌≡◌, ◌*◌, get_or, take};
ghost use Rattle.tool.specs.Tool.{is_tool};
ghost use Rattle.sheet.specs.Sheet.{shape_from, radius_of, sheet_of};
ghost use Rattle.sheet.specs.Enclosing.{is_curved, Encloses};
ghost use Rattle.desk_sheet.specs.Sheets.{sheet_left, sheet_left_by, sheet_from};

use sheet::Sheet;

// The sheet from its eight numbers.
#[tactic(auto, unfolding(crate::specs::Sheets::sheet_from))]
fn sheet_from(measures: &[f64; 8]) -> Sheet
    ensures { result ≡ sheet_from measures.now }
{
    Sheet {
        diameter: measures[0],
        tip_diameter: measures[1],
        tip_height: measures[2],
        cutting_length: measures[3],
        stickout: measures[4],
        neck_length: measures[5],
        above_cut: measures[6],
        above_neck: measures[7],
    }
}

// The sections of a tool from its sheet, four numbers each; count gets their number.
#[unsafe(no_mangle)]
pub extern "C" fn mandrikelo_sections_of(
    shape: u32,
    enclose: bool,
    neck: bool,
    measures: &[f64; 8],
    holders: &[f64],
    sections: &mut [f64],
    count: &mut [u32; 1],
) -> u32
    ensures count_after { sheet_left result sections.new count.new
        ≡ sheet_left_by (sheet_of (shape_from shape) enclose neck (sheet_from measures.now) holders.now sections.old) }
    ensures sections_after { result ≡ 0 → is_tool (take (4 * get_or count.new 0 0) sections.new) ≡ true }
    ensures encloses { result ≡ 0 → is_curved (shape_from shape) ≡ true
        → Encloses (radius_of (sheet_from measures.now)) sections.new }
{
    let a = sheet::sections_of(
        sheet::shape_from(shape),
        enclose,
        neck,
        sheet_from(measures),
        holders,
        sections,
    );
    let n = a.unwrap_or(0);
    let k = refusals::code_of(&a);
    *count = [n];
    k
}
