// The command that a line is. A line is read once, from its first byte to its last.
ghost use Rattle.std.specs.Prelude.{◌≡◌, ◌≤◌, length};
ghost use Rattle.schedule.specs.Lines.{pick, command_of};
ghost use Rattle.schedule.specs.Inner.{FoundAt, or_malformed};

use crate::Command;

// The number that begins at a place, and the place after it.
pub fn number_at(l: &[u8], at: usize) -> Option<(u32, usize)>
    requires { at ≤ length l.now }
    ensures { FoundAt result l.now at }
{
    let mut n = match *l.get(at)? {
        b'0' => return Some((0, at + 1)),
        b @ b'1'..=b'9' => u32::from(b - b'0'),
        _ => return None,
    };
    // by places, since the place after the number is given back
    for i in at + 1..l.len() {
        match l[i] {
            d @ b'0'..=b'9' => n = n.checked_mul(10)?.checked_add(u32::from(d - b'0'))?,
            _ => return Some((n, i)),
        }
    }
    Some((n, l.len()))
}

// The command of a letter and its numbers.
fn choose(letter: u8, v: &[u32]) -> Command
    ensures { result ≡ pick letter (length v.now) v.now }
{
    match (letter, v) {
        (b'S', &[nc, nd, nr, f, rq, wq, top, w]) => Command::SetUp(nc, nd, nr, f, rq, wq, top, w),
        (b'C', &[nc, nd, nr, f, columns, top, w]) => {
            Command::Columns(nc, nd, nr, f, columns, top, w)
        }
        (b'R', &[client]) => Command::Read(client),
        (b'D', &[slot]) => Command::Deliver(slot),
        (b'T', &[replica]) => Command::Tidy(replica),
        (b'W', &[client, w]) => Command::Write(client, w),
        (b'G', &[from, to]) => Command::Gossip(from, to),
        (b'X', &[kind, id]) => Command::Crash(kind, id),
        _ => Command::Malformed,
    }
}

// The command of a line that is a letter and at most eight numbers.
fn fields(line: &[u8]) -> Option<Command>
    ensures { or_malformed result ≡ command_of line.now }
{
    if 80 < line.len() {
        return None;
    }
    let letter = *line.first()?;
    let mut v = [0u32; 8]; // no heap: the numbers stand in an array, and n of them were read
    let mut n = 0;
    let mut at = 1;
    // from number to number
    while at < line.len() {
        if line[at] != b' ' {
            return None;
        }
        let (x, next) = number_at(line, at + 1)?;
        if v.len() <= n {
            return None;
        }
        v[n] = x;
        n += 1;
        at = next;
    }
    Some(choose(letter, &v[..n]))
}

// The command that a line is, without its line end. A malformed line is a command too: it is answered like any other.
pub fn parse(line: &[u8]) -> Command
    ensures { result ≡ command_of line.now }
{
    fields(line).unwrap_or(Command::Malformed)
}
