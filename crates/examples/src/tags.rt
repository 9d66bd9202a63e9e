// Examples 1 and 2: how tags compare.
use crate::show::Pair;
use sets::Tag;
use std::cmp::Ordering;
use std::io;

fn compared(rt: &impl Print, n: u32, a: Tag, b: Tag) -> io::Result<()> {
    let word = match sets::compare(a, b) {
        Ordering::Less => "lower",
        Ordering::Equal => "same",
        Ordering::Greater => "greater",
    };
    println!(rt; "{n} {} against {}: {word}", Pair(a), Pair(b))
}

pub fn run(rt: &impl Print) -> io::Result<()> {
    compared(rt, 1, tag(1, 2), tag(2, 1))?;
    compared(rt, 2, tag(2, 1), tag(2, 2))
}

pub fn tag(number: u32, client: u32) -> Tag {
    Tag { number, client }
}
