// FULL: a replica has room for 12 tags, the first one among them.
use crate::{say, wear};
use machine::Base;
use std::io;

fn writes(m: &mut [u32], times: u32) -> u32 {
    let mut last = 0;
    for _ in 0..times {
        last = wear::write(m);
    }
    last
}

fn fill(rt: &impl Print, m: &mut [u32]) -> io::Result<()> {
    wear::set_up(m, 1000);
    say::line(rt, b"the 12th tag at a replica", writes(m, 11))?;
    say::line(rt, b"the 13th tag at a replica", wear::write(m))
}

pub fn run(rt: &impl Print, m: &mut [u32]) -> io::Result<()> {
    fill(rt, m)?;
    say::line(rt, b"tidy", machine::tidy::<Base>(m, 1).code)?;
    say::line(rt, b"the 13th tag after tidy", wear::deliver(m))
}
