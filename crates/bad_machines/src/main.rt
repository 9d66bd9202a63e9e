// The bad-machine check on hand-made machines. A line of the input is `PLACE VALUE text`: the answer says whether the machine with that one
// word changed is good or bad. A line `u text` begins from a machine after set-up, a line `r text` from one with a row of every kind.
#![tactic(auto)]

ghost use Rattle.std.specs.Prelude.{◌≤◌, length, IfOk};

use sample::Words;
use std::io;
use std::io::Read;
use tables::BASE;

mod number; // number.rt: decimal fields
mod sample; // sample.rt: the two machines

// One answer: the verdict, and the rest of the line.
fn answer(rt: &impl Print, ok: bool, text: &[u8]) -> io::Result<()> {
    rt.write_all(if ok { b"good" } else { b"bad " })?;
    rt.write_all(text)?;
    rt.write_all(b"\n")
}

// The verdict on the machine as it is.
fn is_good(m: &Words) -> bool {
    inspect::is_good(BASE, m)
}

// The verdict on the machine with one word changed.
fn with_word(m: &mut Words, place: usize, value: u32) -> bool {
    let Some(&old) = m.get(place) else {
        return false;
    };
    m[place] = value;
    let ok = is_good(m);
    m[place] = old;
    ok
}

// The answer to one line.
fn respond(rt: &impl Print, m: &mut Words, line: &[u8]) -> io::Result<()> {
    match line {
        [] => Ok(()),
        [b'u', text @ ..] => {
            sample::after_set_up(m);
            answer(rt, is_good(m), text)
        }
        [b'r', text @ ..] => {
            sample::every_row(m);
            answer(rt, is_good(m), text)
        }
        _ => {
            let place = number::field(line);
            let value = number::field(place.rest);
            let ok = with_word(m, place.value as usize, value.value);
            answer(rt, ok, value.rest)
        }
    }
}

// The answers to all lines, in order.
fn run(rt: &impl Print, m: &mut Words, input: &[u8]) -> io::Result<()> {
    for line in input.split(|b| *b == b'\n') {
        respond(rt, m, line)?;
    }
    Ok(())
}

// Reads until the buffer is full or the input ends; the number of bytes read. `read_exact` would not tell it where the input ends first.
fn read_full<R: Read>(reader: &mut R, buffer: &mut [u8]) -> io::Result<usize>
    ensures { IfOk result (λ n. n ≤ length buffer.new) }
{
    let mut done = 0;
    while done < buffer.len() {
        let n = reader.read(&mut buffer[done..])?;
        if n == 0 {
            return Ok(done);
        }
        done += n;
    }
    Ok(done)
}

fn main(rt: HostRuntime) -> io::Result<()> {
    let mut m = [0u32; 4992];
    let mut input = [0u8; 65536];
    let n = read_full(&mut rt.stdin(), &mut input)?;
    run(&rt, &mut m, &input[..n])
}
