// Reads one job from standard input and writes its listing to standard output.
#![tactic(auto)]

ghost use Rattle.std.specs.Prelude.{length};
ghost use Rattle.list.specs.Inside.{Within};

use std::io;
use std::io::{Read, Stdin, Write};

// Reads once, as much of the input as comes.
fn read_some(input: &mut Stdin, buf: &mut [u8]) -> io::Result<usize>
    ensures { Within result (length buf.new) }
{
    input.read(buf)
}

// Reads until buf is full or the input ends.
fn read_input(input: &mut Stdin, buf: &mut [u8]) -> io::Result<usize>
    ensures { Within result (length buf.new) }
{
    let mut done = 0;
    while done < buf.len() {
        let n = read_some(input, &mut buf[done..])?;
        if n == 0 {
            return Ok(done);
        }
        done += n;
    }
    Ok(done)
}

// A read or a write that fails is told on standard error.
fn main(rt: HostRuntime) -> io::Result<()> {
    let mut bytes = [0u8; listing::INPUT];
    let n = match read_input(&mut rt.stdin(), &mut bytes) {
        Ok(n) => n,
        Err(e) => return eprintln!(rt; "standard input: {e}"),
    };
    let mut text = [0u8; listing::TEXT];
    let k = listing::listing(&bytes[..n], &mut text);
    match rt.stdout().write_all(&text[..k]) {
        Ok(()) => Ok(()),
        Err(e) => eprintln!(rt; "standard output: {e}"),
    }
}
