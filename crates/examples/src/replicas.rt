// Examples 8 to 11, read with its mark and tidy, and FULL, on the 240 words of a replica's entries.
ghost use Rattle.std.specs.Prelude.{◌≤◌, length};

use crate::show::{Entries, Pair};
use crate::tags::tag;
use rules::{replica, tidy};
use sets::Tag;
use std::io;
use tables::{Entry, Message};

fn entry(state: u32, t: Tag) -> Entry {
    Entry {
        state,
        tag: t,
        spare: 0,
        page: [7u32; 16],
    }
}

fn read(rt: &impl Print, n: u32, l: &[u32], t: Tag) -> io::Result<()>
    requires { 240 ≤ length l.now }
{
    let found = replica::read_in(l, t);
    let e = found.entry;
    println!(rt;
        "{n} {}: read {}: {}, mark {}",
        Entries(l),
        Pair(t),
        Pair(e.tag),
        found.mark
    )
}

fn tidied(rt: &impl Print, n: u32, l: &mut [u32]) -> io::Result<()>
    requires { 240 ≤ length l.old }
{
    print!(rt; "{n} {}: tidy: ", Entries(l))?;
    tidy::tidy_in(l);
    println!(rt; "{}", Entries(l))
}

fn reads(rt: &impl Print) -> io::Result<()> {
    let mut l = [0u32; 240];
    replica::put_in(&mut l, 0, entry(2, tag(0, 0)));
    replica::put_in(&mut l, 1, entry(1, tag(2, 1)));
    read(rt, 8, &l, tag(2, 1))?;
    read(rt, 9, &l, tag(1, 1))
}

// Entry 1 is (0,0), secured; the next two have these states and tags.
fn tidy_three(rt: &impl Print, n: u32, second: Entry, third: Entry) -> io::Result<()> {
    let mut l = [0u32; 240];
    replica::put_in(&mut l, 0, entry(2, tag(0, 0)));
    replica::put_in(&mut l, 1, second);
    replica::put_in(&mut l, 2, third);
    tidied(rt, n, &mut l)
}

pub fn run(rt: &impl Print) -> io::Result<()> {
    reads(rt)?;
    tidy_three(rt, 10, entry(1, tag(2, 1)), entry(1, tag(3, 1)))?;
    tidy_three(rt, 11, entry(2, tag(2, 1)), entry(1, tag(1, 2)))
}

// Write with tag (n,1), from client 1.
fn write(n: u32) -> Message {
    Message {
        kind: 10,
        sender: 1,
        receiver: 1,
        tag: tag(n, 1),
        set: 0,
        number: 1,
        spare: 0,
        page: [7u32; 16],
    }
}

// The tags (1,1) to (n,1) come.
fn fill(l: &mut [u32], n: u32)
    requires { 240 ≤ length l.old }
{
    for i in 1..=n {
        replica::take_in(l, write(i));
    }
}

// Tag n at a replica that has n − 1, the secured (0,0) among them.
fn comes(rt: &impl Print, n: u32) -> io::Result<()>
    requires { 2 ≤ n }
{
    let mut l = [0u32; 240];
    replica::put_in(&mut l, 0, entry(2, tag(0, 0)));
    fill(&mut l, n - 2);
    let word = if replica::full(&l, write(n)) {
        "FULL"
    } else {
        "not FULL"
    };
    println!(rt; "tag {n} at a replica: {word}")
}

pub fn run_full(rt: &impl Print) -> io::Result<()> {
    comes(rt, 12)?;
    comes(rt, 13)
}
