// Runs a schedule: each line of standard input is a call on one of two machines, answered by a line on standard output.
#![tactic(auto)]

ghost use Rattle.std.specs.Prelude.{◌≡◌, List, [], ℕ, ◌≤◌, ◌<◌, length, take, IfOk, OnOk, OnErr};
ghost use Rattle.std.specs.Io.{ReadsAtMost};
ghost use Rattle.std.specs.Io.KnownBytes.{Consumes, IsAtEnd};
ghost use Rattle.schedule.specs.Lines.{command_of};
ghost use Rattle.schedule.specs.Input.{Held};
ghost use Rattle.rehearse.specs.Rehearsal.{in_force};
ghost use Rattle.rehearse.specs.Turns.{Answered, Turned, Consumed, Passed, Unwritten, DrainedInto, Stopped, Fresh, EndedIn, Rehearsed, Rehearses};

mod calls; // calls.rt: the call that a line is, on the machine that it names
mod failure; // failure.rt: what ends the program before the end of its input
mod output; // output.rt: the answers that wait to be written

use failure::Failure;
use output::Output;
use rules::Answer;
use schedule::Line;
use std::env::{Env, FillError};
use std::io;
use std::io::{ErrorKind, Read, Write};
use std::process::ExitCode;

// What a call gave: its answer, the first word of its page, and whether it was made on the wide machine.
#[derive(Clone, Copy)]
struct Reply {
    answer: Answer,
    word: u32,
    wide: bool,
}

// Where the program stands.
#[derive(Clone, Copy)]
struct Rehearsal {
    lines: u64, // the lines so far
    line: Line, // the pending line
    base: [u32; 4992], // document 01's machine
    wide: [u32; 5036], // the wide machine
    is_wide: bool, // which machine is in force; both are there
    output: Output,
}

// Whether the wide machine is in force after a line with this code: `named` says whether the line named it, `before` whether it was before.
fn in_force(code: u32, named: bool, before: bool) -> bool
    ensures { result ≡ in_force code named before }
{
    if code == 0 { named } else { before }
}

impl Rehearsal {
    // Before the first line.
    fn new() -> Rehearsal
        ensures fresh { Fresh result }
        ensures empty { result.output.len ≡ 0 }
    {
        Rehearsal {
            lines: 0,
            line: Line::new(),
            base: [0; 4992], // "starts from 4,992 zero words"
            wide: [0; 5036],
            is_wide: false,
            output: Output::new(),
        }
    }

    // Answers the pending line, whose end was met, and begins the next one.
    fn answer(&mut self)
        requires { self.old.output.len ≤ 65389 }
        ensures answered { (p : List ℕ) → Held p self.old.line → Answered (command_of p) self.old self.new }
        ensures room { self.new.output.len ≤ 65536 }
    {
        let c = self.line.command();
        self.line.clear();
        self.lines = self.lines.saturating_add(1);
        let r = calls::reply(&mut self.base, &mut self.wide, self.is_wide, c);
        self.is_wide = in_force(r.answer.code, r.wide, self.is_wide);
        self.output.put(self.lines, r.answer, r.word);
    }

    // One line, and the place after it in the chunk; or the rest of the chunk.
    fn turn(&mut self, chunk: &[u8]) -> Option<usize>
        requires { self.old.output.len ≤ 65389 }
        ensures { Turned chunk.now self.old self.new result }
    {
        let next = self.line.feed(chunk)?;
        self.answer();
        Some(next)
    }

    // The lines of a chunk until it ends or the output is full: the place after them.
    fn consume(&mut self, chunk: &[u8]) -> usize
        requires { self.old.output.len ≡ 0 }
        ensures { Consumed chunk.now self.old [] self.new result }
    {
        let mut at = 0;
        while let Some(next) = self.turn(&chunk[at..]) {
            at += next;
            if self.output.is_full() {
                return at;
            }
        }
        chunk.len()
    }

    // The same, and writes their answers. Where that fails it does not go on.
    #[tactic(auto, using(crate::proofs::Turns::passed))]
    fn pass<W: Write>(&mut self, writer: &mut W, chunk: &[u8]) -> Result<usize, Failure>
        requires { self.old.output.len ≡ 0 }
        ensures passed { IfOk result (λ at. Passed chunk.now self.old (W.contents writer.old) self.new (W.contents writer.new) at) }
        ensures unwritten { OnErr result (Unwritten chunk.now self.old [] self.new) }
    {
        let at = self.consume(chunk);
        self.output.flush(writer)?;
        Ok(at)
    }

    // All of a chunk.
    fn drain<W: Write>(&mut self, writer: &mut W, chunk: &[u8]) -> Result<(), Failure>
        requires { self.old.output.len ≡ 0 }
        ensures drained { OnOk result (DrainedInto chunk.now self.old (W.contents writer.old) self.new (W.contents writer.new)) }
        ensures stopped { OnErr result (Stopped chunk.now self.old self.new) }
    {
        let mut rest = chunk;
        while !rest.is_empty() {
            let at = self.pass(writer, rest)?;
            rest = &rest[at..];
        }
        Ok(())
    }

    // The answer to a last line without its end.
    fn end(&mut self)
        requires { self.old.output.len ≡ 0 }
        ensures { EndedIn self.old self.new }
    {
        if self.line.is_unfinished() {
            self.output.put_malformed(self.lines.saturating_add(1));
        }
    }

    // Reads the input piece by piece, until nothing more is to be read and the last of the output is written.
    fn run<R: Read, W: Write>(
        &mut self,
        reader: &mut R,
        writer: &mut W,
        chunk: &mut [u8],
    ) -> Result<(), Failure>
        requires fresh { Fresh self.old }
        requires empty { self.old.output.len ≡ 0 }
        ensures whole { OnOk result (Rehearsed self.new) }
        ensures bytes { OnOk result (0 < length chunk.old → Rehearses (R.remaining reader.old) (W.contents writer.old) (W.contents writer.new)) }
    {
        for _ in 0..u64::MAX {
            let n = next_piece(reader, chunk)?;
            if n == 0 {
                self.end();
                return self.output.flush(writer);
            }
            self.drain(writer, &chunk[..n])?;
        }
        Err(Failure::Reading(io::Error::other("it has too many pieces")))
    }
}

// The next piece of the input, at the start of the chunk, and its length: 0 where nothing is left. A read that a signal cuts short is made again.
fn next_piece<R: Read>(reader: &mut R, chunk: &mut [u8]) -> Result<usize, Failure>
    ensures within { ReadsAtMost result chunk.new }
    ensures bytes { IfOk result (λ n. Consumes (R.remaining reader.old) (R.remaining reader.new) (take n chunk.new)) }
    ensures end { IfOk result (λ n. n ≡ 0 → 0 < length chunk.old → IsAtEnd (R.remaining reader.new)) }
{
    // counted, since a loop that waits for input has no measure
    for _ in 0..u64::MAX {
        match reader.read(chunk) {
            Err(e) if e.kind() == ErrorKind::Interrupted => {}
            read => return read.map_err(Failure::Reading),
        }
    }
    Err(Failure::Reading(io::Error::from(ErrorKind::Interrupted)))
}

// The whole schedule, from zero words: what the writer gets is the rehearsal of what the reader has.
fn rehearse<R: Read, W: Write>(reader: &mut R, writer: &mut W) -> Result<(), Failure>
    ensures { OnOk result (Rehearses (R.remaining reader.old) (W.contents writer.old) (W.contents writer.new)) }
{
    let mut chunk = [0u8; 65536];
    Rehearsal::new().run(reader, writer, &mut chunk)
}

// Whether there is an argument, whatever it says.
fn has_argument(rt: &impl Env) -> bool {
    let mut first = [0u8; 1];
    !matches!(rt.arg(1, &mut first), Err(FillError::NotPresent))
}

// What went wrong is said on standard error; a reader of the answers that went away is no failure.
fn main(rt: HostRuntime) -> ExitCode {
    if has_argument(&rt) {
        let _ = eprintln!(rt; "usage: rehearse < SCHEDULE > ANSWERS");
        return ExitCode::SUCCESS;
    }
    match rehearse(&mut rt.stdin(), &mut rt.stdout()) {
        Err(failure) if !failure.is_quiet() => {
            let _ = eprintln!(rt; "rehearse: {failure}");
            ExitCode::FAILURE
        }
        _ => ExitCode::SUCCESS,
    }
}
