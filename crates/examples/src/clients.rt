// Example 12: a write's number at top.
ghost use Rattle.std.specs.Prelude.{◌≤◌};

use crate::tags::tag;
use rules::{Outcome, client};
use std::{fmt, io};
use tables::{Client, Conf, Message};

// Client 1, in phase 4 of a write, gets the one reply that it waits for, with number n.
fn hears(top: u32, n: u32) -> Outcome
    requires { 3 ≤ top }
{
    let k = Conf {
        clients: 1,
        directories: 1,
        replicas: 3,
        f: 1,
        rq: 1,
        wq: 1,
        top,
        columns: 0,
    };
    let w = Client {
        down: 0,
        phase: 4,
        number: 1,
        answered: 0,
        replicas: 0,
        tag: tag(0, 0),
        spare: 0,
        page: [9u32; 16],
    };
    let x = Message {
        kind: 7,
        sender: 1,
        receiver: 1,
        tag: tag(n, 1),
        set: 0,
        number: 1,
        spare: 0,
        page: [0u32; 16],
    };
    client::outcome_of(k, 1, w, x)
}

// An outcome in words: of a next phase the number of its tag.
#[derive(Clone, Copy)]
struct Words(Outcome);

impl fmt::Display for Words {
    fn fmt<W: fmt::Write>(&self, f: &mut fmt::Formatter<W>) -> fmt::Result {
        match self.0 {
            Outcome::Waiting => f.write_str("waiting"),
            Outcome::Next(t) => write!(f, "number {}", t.number),
            Outcome::ReadEnded(_, _) => f.write_str("READ ENDED"),
            Outcome::WriteEnded(_) => f.write_str("WRITE ENDED"),
            Outcome::Spent => f.write_str("SPENT"),
            Outcome::Stale => f.write_str("STALE"),
        }
    }
}

fn greatest(rt: &impl Print, top: u32, n: u32) -> io::Result<()>
    requires { 3 ≤ top }
{
    println!(rt;
        "12 top {top}, greatest number {n}: {}",
        Words(hears(top, n))
    )
}

pub fn run(rt: &impl Print) -> io::Result<()> {
    greatest(rt, 3, 3)?;
    greatest(rt, 3, 2)
}
