// An input that comes in chunks, cut into lines. Which bytes a line holds (`Held`) is said by who asks, and no field: of a line that is too long it could be many.
ghost use Rattle.std.specs.Prelude.{◌≡◌, List, [], ◌∷◌, ◌++◌, ℕ, ◌==◌, position};
ghost use Rattle.schedule.specs.Lines.{command_of};
ghost use Rattle.schedule.specs.Input.{Held, FedOn, unfinished, malformed_if};

use crate::{Command, Line, reading};

// The place of the first line end.
fn line_end(chunk: &[u8]) -> Option<usize>
    ensures { result ≡ position (λ b. b == 10) chunk.now }
{
    chunk.iter().position(|b| *b == b'\n')
}

impl Line {
    // Before its first byte.
    pub fn new() -> Line
        ensures { Held [] result }
    {
        Line {
            bytes: [0; 80],
            len: 0,
        }
    }

    // The next line begins.
    pub fn clear(&mut self)
        ensures { Held [] self.new }
    {
        self.len = 0;
    }

    // More bytes of it. Those past the 80th are counted and not kept.
    fn keep(&mut self, part: &[u8])
        ensures { (p : List ℕ) → Held p self.old → Held (p ++ part.now) self.new }
    {
        let at = self.len.min(80);
        let end = at + part.len().min(80 - at);
        self.bytes[at..end].copy_from_slice(&part[..end - at]);
        self.len = self.len.saturating_add(part.len());
    }

    // Reads on, up to a line end or the chunk's end: the place after the line end, where there was one.
    pub fn feed(&mut self, chunk: &[u8]) -> Option<usize>
        ensures { FedOn self.old chunk.now self.new result }
    {
        let Some(end) = line_end(chunk) else {
            self.keep(chunk);
            return None;
        };
        self.keep(&chunk[..end]);
        Some(end + 1)
    }

    // The command that the line is, once its line end was met. A line that is too long has more bytes than there are.
    pub fn command(&self) -> Command
        ensures { (p : List ℕ) → Held p self.now → result ≡ command_of p }
    {
        match self.bytes.get(..self.len) {
            Some(line) => reading::parse(line),
            None => Command::Malformed,
        }
    }

    // Whether the input ends with an unfinished line, which is malformed whatever it says.
    pub fn is_unfinished(&self) -> bool
        ensures { (p : List ℕ) → Held p self.now → malformed_if result ≡ unfinished p }
    {
        self.len != 0
    }
}
