// Asks for the contacts and distances that camlib was asked for, and counts the answers that differ in a bit. Standard input is the list: a line holds a
// letter, the nine coordinates of a triangle, x and y of a place, four numbers more, then camlib's answers: 1 and the height of the contact or 0 and 0, and the
// distance of the place from the triangle; each number as the 16 hex digits of its bits, every NaN as 7ff8000000000000. The letter n is a bull-nose cutter's:
// its axis, r, rc, the floor and 0. s is a section's: its axis, z0, r0, r1 and rise. Among them are degenerate, upright and level triangles, needles, axes on
// vertices and on edges, radii and corners of 0, corners of the whole radius, sections level and steep, and the ends of the ranges. All others are a capsule's:
// px, py, qx, qy, r and eps; a ordinary, b small beside a large disk, c degenerate, d upright, e needles, f touching in exact points, g signed zeros, h the
// ends of the ranges, i determinants near 1e-300, j no length or no radius, k large and far, l any bits. The list was made by compare/lists/make, from camlib's
// own functions with document 01's max and min and request 6's hypot. Written are six numbers: the lines, the heights among the contacts, and how many contacts
// of capsules, of bull-nose cutters and of sections and how many distances differ.
#![tactic(auto)]

use bull::Bull;
use plane::{Contact, Triangle};
use section::Section;
use std::io;
use std::io::Read;

// The contact in the capsule.
fn of_capsule(line: &[u8; 293], t: Triangle) -> Option<Contact> {
    let px = vectors::asked(line, 9);
    let py = vectors::asked(line, 10);
    let qx = vectors::asked(line, 11);
    let qy = vectors::asked(line, 12);
    capsule::max_in_capsule(
        t,
        px,
        py,
        qx,
        qy,
        vectors::asked(line, 13),
        vectors::asked(line, 14),
    )
}

// The contact of the bull-nose cutter.
fn of_bull(line: &[u8; 293], t: Triangle) -> Option<Contact> {
    let k = Bull {
        x: vectors::asked(line, 9),
        y: vectors::asked(line, 10),
        r: vectors::asked(line, 11),
        rc: vectors::asked(line, 12),
    };
    bull::bull_contact_above(t, k, vectors::asked(line, 13))
}

// The contact of the section.
fn of_section(line: &[u8; 293], t: Triangle) -> Option<Contact> {
    let s = Section {
        z0: vectors::asked(line, 11),
        r0: vectors::asked(line, 12),
        r1: vectors::asked(line, 13),
        rise: vectors::asked(line, 14),
    };
    section::section_contact(t, vectors::asked(line, 9), vectors::asked(line, 10), s)
}

// 1 where the distance is not the line's last number.
fn far(line: &[u8; 293], t: Triangle) -> u64 {
    let d = plane::distance_xy(t, vectors::asked(line, 9), vectors::asked(line, 10));
    vectors::unlike(vectors::bits_of(d), vectors::number(line, 276))
}

// Counts a contact, and in column k whether it differs.
fn tell(table: &mut [u64; 6], line: &[u8; 293], c: Option<Contact>, k: usize) {
    if k < 6 {
        table[1] = table[1].wrapping_add(vectors::height(c));
        table[k] = table[k].wrapping_add(vectors::differs(line, c));
    }
}

// Counts the line, if it was read whole.
fn count(table: &mut [u64; 6], line: &[u8; 293], n: usize) {
    if n == 293 {
        let t = vectors::triangle(line);
        table[0] = table[0].wrapping_add(1);
        table[5] = table[5].wrapping_add(far(line, t));
        if line[0] == b'n' {
            tell(table, line, of_bull(line, t), 3);
        } else {
            if line[0] == b's' {
                tell(table, line, of_section(line, t), 4);
            } else {
                tell(table, line, of_capsule(line, t), 2);
            }
        }
    }
}

fn write(rt: &impl Print, n: u64) -> io::Result<()> {
    println!(rt; "{n}")
}

fn main(rt: HostRuntime) -> io::Result<()> {
    let mut input = rt.stdin();
    let mut table = [0u64; 6];
    for _ in 0..1000usize {
        let mut line = [0u8; 293];
        let n = match input.read_exact(&mut line) {
            Ok(()) => 293,
            Err(_) => 0,
        };
        count(&mut table, &line, n);
    }
    for k in 0..6usize {
        write(&rt, table[k])?;
    }
    Ok(())
}
