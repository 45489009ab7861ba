// Asks the section questions over a slice of Section structs. A case is made from its number by shifts and exclusive or alone: a mesh of six
// triangles, a tool of 0, 1, 2, 3, 32 or 33 sections, a place and a chord. Standard input is a list of camlib's answers to the first thousand cases,
// a line each: the refusal (8 for none and for 33 sections, where camlib is not asked), the height's bits as 16 hex digits, 0 for no verdict, 1 for
// clear or 2 for blocked, and all marks afterwards, two hex digits each behind four. compare/lists/make answers the list anew, by camlib's own
// functions with document 01's max, min and hypot. Then, where the list was answered rightly, a hundred thousand cases are asked over the slice and
// over the flat table, and whole answers and marks are compared. Written are six numbers: the lines, how many of them are accepted and how many
// clear, how many differ from the list; the cases asked both ways, and how many of them differ.
#![tactic(auto)]

ghost use Rattle.std.specs.Prelude.{◌≤◌};

use ask::{Answer, Ruling};
use grid::Header;
use reach::Chord;
use refusals::Refusal;
use section::Section;
use std::io;
use std::io::Read;

// A case but for its mesh: the chord, whose first end is the place, how many sections the tool has, and what they are made from.
#[derive(Clone, Copy)]
struct Question {
    m: Chord,
    n: usize,
    tool: u64,
}

// What was answered to a case: the height's question and the chord's, and the marks.
#[derive(Clone, Copy)]
struct Told {
    height: Result<Answer, Refusal>,
    ruling: Result<Ruling, Refusal>,
    marks: u64,
}

// Another number: three shifts and exclusive or.
fn next(x: u64) -> u64 {
    let a = x ^ (x << 13);
    let b = a ^ (a >> 7);
    b ^ (b << 17)
}

// Where case i begins.
fn start(i: u64) -> u64 {
    next(next(next(next(i ^ 0x9e37_79b9_7f4a_7c15))))
}

// A float from 1 to below 2.
fn unit(x: u64) -> f64 {
    vectors::float(0x3ff0_0000_0000_0000 | (x >> 12))
}

// A coordinate from -8 to below 8.
fn coordinate(x: u64) -> f64 {
    (unit(x) - 1.5) * 16.0
}

// Where the triangle of number i lies: its x, y or z.
fn corner(seed: u64, i: usize) -> f64 {
    let k = i / 9 * 3 + i % 3;
    coordinate(start(seed ^ k as u64))
}

// The mesh of a case: each number within 4 of where its triangle lies.
fn fill(seed: u64, mesh: &mut [f64; 54]) {
    let mut x = seed;
    for i in 0..54usize {
        x = next(x);
        mesh[i] = corner(seed, i) + coordinate(x) / 2.0;
    }
}

// How many sections the tool has: most often one to three.
fn sections_of(x: u64) -> usize
    ensures { result ≤ 33 }
{
    match x & 63 {
        0 => 0,
        1 => 33,
        2 => 32,
        3 | 4 | 5 | 6 | 7 | 8 | 9 | 10 | 11 | 12 | 13 | 14 | 15 | 16 | 17 | 18 | 19 => 1,
        20 | 21 | 22 | 23 | 24 | 25 | 26 | 27 | 28 | 29 | 30 | 31 | 32 | 33 | 34 | 35 => 2,
        _ => 3,
    }
}

// A section: r1 from 0.25 to below 1.25, r0 at most r1.
fn section_of(x: u64) -> Section {
    let a = next(x);
    let b = next(a);
    let c = next(b);
    let r1 = unit(a) - 0.75;
    Section {
        z0: (unit(x) - 1.0) * 4.0,
        r0: r1 * (unit(b) - 1.0),
        r1,
        rise: unit(c) - 1.0,
    }
}

// The sections of a tool; a question takes the first of them.
fn tool_of(seed: u64) -> [Section; 33] {
    let mut t = [section_of(seed); 33];
    let mut x = seed;
    for i in 0..33usize {
        t[i] = section_of(x);
        x = next(next(next(next(x))));
    }
    t
}

// The question of a case.
fn question_of(seed: u64) -> Question
    ensures { result.n ≤ 33 }
{
    let a = next(seed);
    let b = next(a);
    let c = next(b);
    let d = next(c);
    let e = next(d);
    let ax = coordinate(a);
    let ay = coordinate(b);
    Question {
        m: Chord {
            ax,
            ay,
            az: coordinate(c) + 2.0,
            bx: ax + coordinate(d) / 8.0,
            by: ay + coordinate(e) / 8.0,
            bz: coordinate(next(e)) + 2.0,
            lift: 0.0,
        },
        n: sections_of(seed),
        tool: next(next(e)),
    }
}

// The highest tip of a tool of the first n sections, over a slice of them.
fn of_heights(
    mesh: &[f64],
    h: Header,
    starts: &[u32],
    members: &[u32],
    boxes: &[f64],
    marks: &mut [u32],
    stamp: u32,
    px: f64,
    py: f64,
    t: [Section; 33],
    n: usize,
) -> Result<Answer, Refusal>
    requires { n ≤ 33 }
{
    sections::max_sections(
        mesh,
        h,
        starts,
        members,
        boxes,
        marks,
        stamp,
        px,
        py,
        &t[..n],
    )
}

// Whether it is clear on a chord.
fn of_chords(
    mesh: &[f64],
    h: Header,
    starts: &[u32],
    members: &[u32],
    boxes: &[f64],
    marks: &mut [u32],
    stamp: u32,
    m: Chord,
    t: [Section; 33],
    n: usize,
) -> Result<Ruling, Refusal>
    requires { n ≤ 33 }
{
    sections::sections_chord_clear(mesh, h, starts, members, boxes, marks, stamp, m, &t[..n])
}

// The flat table of a tool.
fn flat_of(t: [Section; 33]) -> [f64; 132] {
    let mut numbers = [0.0; 132];
    for i in 0..33usize {
        let s = t[i];
        numbers[i * 4] = s.z0;
        numbers[i * 4 + 1] = s.r0;
        numbers[i * 4 + 2] = s.r1;
        numbers[i * 4 + 3] = s.rise;
    }
    numbers
}

// Both questions over the slice.
fn by_slice(
    mesh: &[f64],
    h: Header,
    starts: &[u32],
    members: &[u32],
    boxes: &[f64],
    marks: &mut [u32; 6],
    q: Question,
) -> Told
    requires { q.n ≤ 33 }
{
    let m = q.m;
    let t = tool_of(q.tool);
    let height = of_heights(
        mesh, h, starts, members, boxes, marks, 0, m.ax, m.ay, t, q.n,
    );
    let ruling = of_chords(
        mesh,
        h,
        starts,
        members,
        boxes,
        marks,
        stamp_after(height),
        m,
        t,
        q.n,
    );
    Told {
        height,
        ruling,
        marks: packed(marks),
    }
}

// Both questions over the flat table.
fn by_table(
    mesh: &[f64],
    h: Header,
    starts: &[u32],
    members: &[u32],
    boxes: &[f64],
    marks: &mut [u32; 6],
    q: Question,
) -> Told
    requires { q.n ≤ 33 }
{
    let m = q.m;
    let numbers = flat_of(tool_of(q.tool));
    let k = q.n * 4;
    let height = tips::max_sections(
        mesh,
        h,
        starts,
        members,
        boxes,
        marks,
        0,
        m.ax,
        m.ay,
        &numbers[..k],
    );
    let ruling = chords::sections_chord_clear(
        mesh,
        h,
        starts,
        members,
        boxes,
        marks,
        stamp_after(height),
        m,
        &numbers[..k],
    );
    Told {
        height,
        ruling,
        marks: packed(marks),
    }
}

// The stamp after a question that was asked with stamp 0.
fn stamp_after(a: Result<Answer, Refusal>) -> u32 {
    match a {
        Ok(a) => a.stamp,
        Err(_) => 0,
    }
}

// The height's bits, those of 0 where it is refused.
fn height_bits(a: Result<Answer, Refusal>) -> u64 {
    match a {
        Ok(a) => vectors::bits_of(a.height),
        Err(_) => vectors::bits_of(0.0),
    }
}

fn wide(x: u32) -> u64 {
    x as u64
}

// All marks in one number: each is 0, 1 or 2.
fn packed(marks: &[u32; 6]) -> u64 {
    (wide(marks[0]) << 40)
        ^ (wide(marks[1]) << 32)
        ^ (wide(marks[2]) << 24)
        ^ (wide(marks[3]) << 16)
        ^ (wide(marks[4]) << 8)
        ^ wide(marks[5])
}

// Case i over the slice, or over the table.
fn asked(i: u64, slice: bool) -> Told {
    let seed = start(i);
    let mut mesh = [0.0; 54];
    fill(seed, &mut mesh);
    indexed(&mesh, question_of(next(seed)), slice)
}

// The question over the index of its mesh.
fn indexed(mesh: &[f64; 54], q: Question, slice: bool) -> Told
    requires { q.n ≤ 33 }
{
    let mut starts = [0u32; 64];
    let mut members = [0u32; 512];
    let mut boxes = [0.0; 30];
    let none = Header {
        n: 0,
        origin_x: 0.0,
        origin_y: 0.0,
        cell: 0.0,
        columns: 0,
        rows: 0,
        floor: 0.0,
        eps: 0.0,
        r: 0.0,
    };
    let h = match grid::build(mesh, -10.0, 1.0, &mut starts, &mut members, &mut boxes) {
        Ok(h) => h,
        Err(_) => none,
    };
    over(mesh, h, &starts, &members, &boxes, q, slice)
}

// The question over its tables.
fn over(
    mesh: &[f64; 54],
    h: Header,
    starts: &[u32; 64],
    members: &[u32; 512],
    boxes: &[f64; 30],
    q: Question,
    slice: bool,
) -> Told
    requires { q.n ≤ 33 }
{
    let mut marks = [0u32; 6];
    if slice {
        return by_slice(mesh, h, starts, members, boxes, &mut marks, q);
    }
    by_table(mesh, h, starts, members, boxes, &mut marks, q)
}

// 1 where one of the numbers is another.
fn unlike(a: u64, b: u64, c: u64, d: u64) -> u64 {
    if a == b {
        return vectors::unlike(c, d);
    }
    1
}

// 1 where a case's answer is not that of its line.
fn differs(line: &[u8; 38], a: Told) -> u64 {
    let height = a.height;
    let ruling = a.ruling;
    let refusal = vectors::digit(line[0]);
    let told = unlike(
        wide(refusals::code_of(&height)),
        refusal,
        height_bits(height),
        vectors::number(line, 2),
    );
    let verdict = unlike(
        wide(ask::finding_number(&ruling)),
        vectors::digit(line[19]),
        a.marks,
        vectors::number(line, 21),
    );
    told | verdict | vectors::unlike(wide(refusals::code_of(&ruling)), refusal)
}

// 1 where the answers over the slice and over the table differ.
fn parts(a: Told, b: Told) -> u64 {
    heights_part(a.height, b.height)
        | rulings_part(a.ruling, b.ruling)
        | vectors::unlike(a.marks, b.marks)
}

fn heights_part(a: Result<Answer, Refusal>, b: Result<Answer, Refusal>) -> u64 {
    match (a, b) {
        (Ok(a), Ok(b)) => {
            vectors::unlike(vectors::bits_of(a.height), vectors::bits_of(b.height))
                | unlike(wide(a.count), wide(b.count), wide(a.stamp), wide(b.stamp))
                | touched_part(a, b)
        }
        (Err(a), Err(b)) => vectors::unlike(wide(a.number()), wide(b.number())),
        _ => 1,
    }
}

// What was touched: the triangle, the kind, and which of three.
fn touched_part(a: Answer, b: Answer) -> u64 {
    vectors::unlike(wide(a.triangle), wide(b.triangle))
        | unlike(wide(a.kind), wide(b.kind), wide(a.which), wide(b.which))
}

fn rulings_part(a: Result<Ruling, Refusal>, b: Result<Ruling, Refusal>) -> u64 {
    let finding = vectors::unlike(wide(ask::finding_number(&a)), wide(ask::finding_number(&b)));
    match (a, b) {
        (Ok(a), Ok(b)) => {
            finding | unlike(wide(a.count), wide(b.count), wide(a.stamp), wide(b.stamp))
        }
        (Err(a), Err(b)) => finding | vectors::unlike(wide(a.number()), wide(b.number())),
        _ => 1,
    }
}

// 1 where a and b are the same.
fn alike(a: u64, b: u64) -> u64 {
    if a == b { 1 } else { 0 }
}

// Counts the line of case i, if it was read whole.
fn count_line(table: &mut [u64; 6], line: &[u8; 38], n: usize, i: u64) {
    if n == 38 {
        let a = asked(i, true);
        let ruling = a.ruling;
        let clear = alike(wide(ask::finding_number(&ruling)), 1);
        table[0] = table[0].wrapping_add(1);
        table[1] = table[1].wrapping_add(alike(wide(refusals::code_of(&ruling)), 0));
        table[2] = table[2].wrapping_add(clear);
        table[3] = table[3].wrapping_add(differs(line, a));
    }
}

// Counts case i, asked over the slice and over the table.
fn count_both(table: &mut [u64; 6], i: u64) {
    let d = parts(asked(i, true), asked(i, false));
    table[4] = table[4].wrapping_add(1);
    table[5] = table[5].wrapping_add(d);
}

// A hundred thousand cases both ways, where no line differed.
fn ask_both(table: &mut [u64; 6]) {
    if table[3] == 0 {
        ask_all(table);
    }
}

fn ask_all(table: &mut [u64; 6]) {
    for i in 0..100000u64 {
        count_both(table, i);
    }
}

fn write(rt: &impl Print, n: u64) -> io::Result<()> {
    println!(rt; "{n}")
}

fn main(rt: HostRuntime) -> io::Result<()> {
    let mut input = rt.stdin();
    let mut table = [0u64; 6];
    for i in 0..1000u64 {
        let mut line = [0u8; 38];
        let n = match input.read_exact(&mut line) {
            Ok(()) => 38,
            Err(_) => 0,
        };
        count_line(&mut table, &line, n, i);
    }
    ask_both(&mut table);
    write(&rt, table[0])?;
    write(&rt, table[1])?;
    write(&rt, table[2])?;
    write(&rt, table[3])?;
    write(&rt, table[4])?;
    write(&rt, table[5])
}
