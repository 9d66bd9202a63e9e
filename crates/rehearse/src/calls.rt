// The call that a line is, on the machine that it names: document 01's is lent as `m`, the wide one as `w`.
ghost use Rattle.std.specs.Prelude.{◌≡◌, length};
ghost use Rattle.rehearse.specs.Rehearsal.{page_of, call_of, goes_wide, made, machines};
ghost use Rattle.rehearse.specs.Turns.{Said, Replied};

use crate::Reply;
use machine::{Base, LaidOut, Wide};
use rules::{Answer, answers};
use schedule::Command;
use tables::Conf;

// "w is the page's first word, the others are zero."
fn page(w: u32) -> [u32; 16]
    ensures sixteen { 16 ≡ length result }
    ensures words { result ≡ page_of w }
{
    [w, 0, 0, 0, 0, 0, 0, 0, 0, 0, 0, 0, 0, 0, 0, 0]
}

// Makes the call that a command is on a machine of layout L: its answer, and the page's first word.
fn call<L: LaidOut>(m: &mut [u32], c: Command) -> (Answer, u32)
    ensures { Said (made L.LAYOUT (call_of c) m.old) result m.new }
{
    match c {
        Command::SetUp(clients, directories, replicas, f, rq, wq, top, word) => {
            let k = Conf {
                clients,
                directories,
                replicas,
                f,
                rq,
                wq,
                top,
                columns: 0,
            };
            (machine::set_up::<L>(m, k, &page(word)), 0)
        }
        Command::Columns(clients, directories, replicas, f, columns, top, word) => {
            let k = Conf {
                clients,
                directories,
                replicas,
                f,
                rq: 0,
                wq: 0,
                top,
                columns,
            };
            (machine::set_up::<L>(m, k, &page(word)), 0)
        }
        Command::Read(client) => (machine::start_read::<L>(m, client), 0),
        Command::Write(client, word) => (machine::start_write::<L>(m, client, &page(word)), 0),
        Command::Deliver(slot) => {
            let mut filled = page(0);
            let answer = machine::deliver::<L>(m, slot, &mut filled);
            (answer, filled[0])
        }
        Command::Gossip(from, to) => (machine::gossip::<L>(m, from, to), 0),
        Command::Tidy(replica) => (machine::tidy::<L>(m, replica), 0),
        Command::Crash(kind, id) => (machine::crash::<L>(m, kind, id), 0),
        // no call: the paper's code, from no machine
        Command::Malformed => (answers::coded(18), 0),
    }
}

// Whether a command goes to the wide machine: S and C name theirs, and `wide` says which is in force.
fn goes_wide(c: Command, wide: bool) -> bool
    ensures { result ≡ goes_wide c wide }
{
    match c {
        Command::SetUp(..) => false,
        Command::Columns(..) => true,
        _ => wide,
    }
}

// Makes the call that a command is on the machine that it names.
pub(crate) fn reply(m: &mut [u32], w: &mut [u32], wide: bool, c: Command) -> Reply
    ensures { Replied c (machines wide m.old w.old) result m.new w.new }
{
    let wide = goes_wide(c, wide);
    let (answer, word) = if wide {
        call::<Wide>(w, c)
    } else {
        call::<Base>(m, c)
    };
    Reply { answer, word, wide }
}
