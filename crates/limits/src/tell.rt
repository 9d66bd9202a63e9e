// Report after a dozen steps.
use crate::{say, set_up};
use machine::Base;
use std::io;

fn told(rt: &impl Print, m: &[u32]) -> io::Result<()> {
    let r = machine::report::<Base>(m);
    say::line(rt, b"report", r.code)?;
    say::line(rt, b"waiting messages", r.waiting)?;
    say::line(rt, b"parties down", r.down)
}

fn deliver(rt: &impl Print, m: &mut [u32], slot: u32) -> io::Result<()> {
    let mut shown = [0u32; 16];
    say::line(
        rt,
        b"deliver",
        machine::deliver::<Base>(m, slot, &mut shown).code,
    )
}

fn begin(rt: &impl Print, m: &mut [u32]) -> io::Result<()> {
    let k = set_up::conf(3, 3, 1, 2, 2, 99);
    say::line(
        rt,
        b"set-up",
        machine::set_up::<Base>(m, k, &[9u32; 16]).code,
    )?;
    say::line(rt, b"start read", machine::start_read::<Base>(m, 1).code)
}

fn begin_write(rt: &impl Print, m: &mut [u32]) -> io::Result<()> {
    say::line(
        rt,
        b"start write",
        machine::start_write::<Base>(m, 2, &[9u32; 16]).code,
    )?;
    say::line(
        rt,
        b"crash of directory 3",
        machine::crash::<Base>(m, 2, 3).code,
    )
}

fn go_on(rt: &impl Print, m: &mut [u32]) -> io::Result<()> {
    deliver(rt, m, 1)?;
    deliver(rt, m, 2)?;
    deliver(rt, m, 3)?;
    deliver(rt, m, 4)
}

fn end(rt: &impl Print, m: &mut [u32]) -> io::Result<()> {
    say::line(rt, b"gossip", machine::gossip::<Base>(m, 1, 2).code)?;
    say::line(
        rt,
        b"crash of replica 3",
        machine::crash::<Base>(m, 3, 3).code,
    )?;
    deliver(rt, m, 1)?;
    deliver(rt, m, 128)
}

pub fn run(rt: &impl Print, m: &mut [u32]) -> io::Result<()> {
    begin(rt, m)?;
    begin_write(rt, m)?;
    go_on(rt, m)?;
    end(rt, m)?;
    told(rt, m)
}
