// Examples 3 to 7: D, a directory with (3,1) and {1,2}, at f = 1.
ghost use Rattle.std.specs.Prelude.{◌≤◌};
ghost use Rattle.rules.specs.Inner.{DirectoryAble};

use crate::show::{Pair, Parties};
use crate::tags::tag;
use rules::directory;
use sets::Tag;
use std::io;
use tables::{Directory, Message};

fn d() -> Directory {
    Directory {
        down: 0,
        tag: tag(3, 1),
        set: 0b11,
    }
}

// D's row afterwards; where it is as before, whether it replied.
fn takes(rt: &impl Print, x: Message) -> io::Result<()>
    requires { DirectoryAble 1 x }
{
    let after = directory::after(1, d(), x);
    let post = directory::post(d(), x);
    if after != d() {
        println!(rt; "{}, {}", Pair(after.tag), Parties(after.set))
    } else if post.to == 0 {
        println!(rt; "no change")
    } else {
        println!(rt; "no change, reply")
    }
}

fn message(kind: u32, sender: u32, t: Tag, set: u32, number: u32) -> Message
    requires { (1 ≤ sender) × (sender ≤ 32) }
    ensures { DirectoryAble 1 result }
{
    Message {
        kind,
        sender,
        receiver: 1,
        tag: t,
        set,
        number,
        spare: 0,
        page: [0u32; 16],
    }
}

// Wwrite with tag t and set s, from client 1.
fn wwrite(rt: &impl Print, n: u32, t: Tag, s: u32) -> io::Result<()> {
    print!(rt; "{n} D takes wwrite {}, {}: ", Pair(t), Parties(s))?;
    takes(rt, message(4, 1, t, s, 1))
}

// Notice with tag t, from replica 3.
fn notice(rt: &impl Print, n: u32, t: Tag) -> io::Result<()> {
    print!(rt; "{n} D takes notice {} from 3: ", Pair(t))?;
    takes(rt, message(14, 3, t, 0, 0))
}

pub fn run(rt: &impl Print) -> io::Result<()> {
    wwrite(rt, 3, tag(3, 1), 0b110)?;
    wwrite(rt, 4, tag(2, 2), 0b110)?;
    wwrite(rt, 5, tag(4, 1), 0b100)?;
    wwrite(rt, 6, tag(4, 1), 0b110)?;
    notice(rt, 7, tag(4, 1))
}
