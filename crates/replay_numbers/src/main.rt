// Asks the numbers what Rust was asked, and counts the answers that differ in a bit. Standard input is the list: a line holds a letter for the
// function, x, y and Rust's answer, each number as the 16 hex digits of its bits, y being 0 where there is one operand. Every NaN is written
// 7ff8000000000000. The list was made by compare/lists/make: sqrt, floor, ceil, abs and total_cmp are Rust's own; max, min, the clamp and hypot are
// document 01's rules in Rust. It has the first and last values of exponents, a subnormal of each length, squares and their neighbours, halves and
// whole numbers around 2^52 and 2^53, both zeros, both infinities, NaN, and some random bits. For each function a line is written: its letter, how
// many questions it had and how many answers differ.
#![tactic(auto)]

use std::io;
use std::io::Read;

// the letter at place k: root, down, up, abs, clamp, max, min (n), hypot, total order
fn letter(k: usize) -> u8 {
    match k {
        0 => b'r',
        1 => b'd',
        2 => b'u',
        3 => b'a',
        4 => b'c',
        5 => b'm',
        6 => b'n',
        7 => b'h',
        _ => b't',
    }
}

fn answer(what: u8, x: f64, y: f64) -> u64 {
    match what {
        b'r' => vectors::bits_of(roots::root(x)),
        b'd' => vectors::bits_of(numbers::round_down(x)),
        b'u' => vectors::bits_of(numbers::round_up(x)),
        b'a' => vectors::bits_of(numbers::abs(x)),
        b'c' => vectors::bits_of(numbers::clamp_unit(x)),
        b'm' => vectors::bits_of(numbers::max(x, y)),
        b'n' => vectors::bits_of(numbers::min(x, y)),
        b'h' => vectors::bits_of(roots::hypot(x, y)),
        _ => if numbers::total_less(x, y) { 1 } else { 0 },
    }
}

// 1 where the answer to the line's question is not the line's
fn differs(line: &[u8; 53]) -> u32 {
    let a = answer(line[0], vectors::asked(line, 0), vectors::asked(line, 1));
    if a == vectors::number(line, 36) { 0 } else { 1 }
}

fn place(what: u8) -> usize {
    match what {
        b'r' => 0,
        b'd' => 1,
        b'u' => 2,
        b'a' => 3,
        b'c' => 4,
        b'm' => 5,
        b'n' => 6,
        b'h' => 7,
        _ => 8,
    }
}

fn add(table: &mut [u32; 9], k: usize, by: u32) {
    if k < 9 {
        table[k] = table[k].wrapping_add(by);
    }
}

// Counts the line, if it was read whole.
fn count(asked: &mut [u32; 9], wrong: &mut [u32; 9], line: &[u8; 53], n: usize) {
    if n == 53 {
        let k = place(line[0]);
        add(asked, k, 1);
        add(wrong, k, differs(line));
    }
}

fn report(rt: &impl Print, k: usize, asked: u32, wrong: u32) -> io::Result<()> {
    let name = letter(k) as char;
    println!(rt; "{name} {asked} {wrong}")
}

fn main(rt: HostRuntime) -> io::Result<()> {
    let mut input = rt.stdin();
    let mut asked = [0u32; 9];
    let mut wrong = [0u32; 9];
    for _ in 0..2000usize {
        let mut line = [0u8; 53];
        let n = match input.read_exact(&mut line) {
            Ok(()) => 53,
            Err(_) => 0,
        };
        count(&mut asked, &mut wrong, &line, n);
    }
    for k in 0..9usize {
        report(&rt, k, asked[k], wrong[k])?;
    }
    Ok(())
}
