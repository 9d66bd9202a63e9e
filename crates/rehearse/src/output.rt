// The output that waits to be written. It is written where a piece of the input ends, or where it is full: one write of many answers is
// what makes it fast.
ghost use Rattle.std.specs.Prelude.{◌≡◌, false, ◌+◌, ◌≤◌, take, OnOk, OnErr};
ghost use Rattle.std.specs.Io.KnownBytes.{Appends};
ghost use Rattle.schedule.specs.Text.{answer_text};
ghost use Rattle.schedule.specs.Inner.{Printed};

use crate::failure::Failure;
use rules::Answer;
use schedule::printing;
use std::io::Write;

// The first `len` of the bytes wait. How many may wait before a line is put, or before all is written, is asked there: it is another number each time.
#[derive(Clone, Copy)]
pub(crate) struct Output {
    bytes: [u8; 65536],
    len: usize,
}

impl Output {
    pub(crate) fn new() -> Output
        ensures { result.len ≡ 0 }
    {
        Output {
            bytes: [0; 65536],
            len: 0,
        }
    }

    // The line that answers a call.
    pub(crate) fn put(&mut self, line: u64, a: Answer, word: u32)
        requires { self.old.len ≤ 65389 }
        ensures { Printed 147 self.old.bytes self.old.len (answer_text line a.code a.client a.tag.number a.tag.client word a.mark) self.new.bytes self.new.len }
    {
        let t = a.tag;
        self.len = printing::put_answer(
            &mut self.bytes,
            self.len,
            line,
            a.code,
            a.client,
            t.number,
            t.client,
            word,
            a.mark,
        );
    }

    // The line that answers a malformed one.
    pub(crate) fn put_malformed(&mut self, line: u64)
        requires { self.old.len ≤ 65389 }
        ensures { Printed 147 self.old.bytes self.old.len (answer_text line 18 0 0 0 0 0) self.new.bytes self.new.len }
    {
        self.len = printing::put_malformed(&mut self.bytes, self.len, line);
    }

    // Whether one more line, of at most 147 bytes, may have no room.
    pub(crate) fn is_full(&self) -> bool
        ensures { result ≡ false → self.now.len ≤ 65389 }
    {
        65389 < self.len
    }

    // Writes what waits.
    pub(crate) fn flush<W: Write>(&mut self, writer: &mut W) -> Result<(), Failure>
        requires { self.old.len ≤ 65536 }
        ensures written { OnOk result (Appends (W.contents writer.old) (W.contents writer.new) (take self.old.len self.old.bytes) × (self.new.len ≡ 0)) }
        ensures left { OnErr result (self.new.len ≡ self.old.len) }
        ensures same { self.new.bytes ≡ self.old.bytes }
    {
        writer
            .write_all(&self.bytes[..self.len])
            .map_err(Failure::Writing)?;
        self.len = 0;
        Ok(())
    }
}
