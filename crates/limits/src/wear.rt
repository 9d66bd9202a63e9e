// WORN: a start with message number + 3 above top.
use crate::say;
use machine::Base;
use std::io;
use tables::Conf;

// One client, one directory, one replica.
fn conf(top: u32) -> Conf {
    Conf {
        clients: 1,
        directories: 1,
        replicas: 1,
        f: 0,
        rq: 1,
        wq: 1,
        top,
        columns: 0,
    }
}

pub fn set_up(m: &mut [u32], top: u32) {
    machine::set_up::<Base>(m, conf(top), &[7u32; 16]);
}

pub fn deliver(m: &mut [u32]) -> u32 {
    let mut shown = [0u32; 16];
    machine::deliver::<Base>(m, 1, &mut shown).code
}

// Answers the last code that was no DONE.
fn deliver_all(m: &mut [u32], times: u32) -> u32 {
    let mut last = 0;
    for _ in 0..times {
        let code = deliver(m);
        if code != 0 {
            last = code;
        }
    }
    last
}

// A write from its start to the secured entry: every message of it enters slot 1. Answers WRITE ENDED, or the code that stopped it.
pub fn write(m: &mut [u32]) -> u32 {
    let code = machine::start_write::<Base>(m, 1, &[9u32; 16]).code;
    if code != 0 {
        return code;
    }
    deliver_all(m, 7)
}

fn after_write(m: &mut [u32], top: u32) -> u32 {
    set_up(m, top);
    write(m);
    machine::start_read::<Base>(m, 1).code
}

// A write uses three message numbers.
pub fn run(rt: &impl Print, m: &mut [u32]) -> io::Result<()> {
    say::line(rt, b"start with message number top - 3", after_write(m, 6))?;
    say::line(rt, b"start with message number top - 2", after_write(m, 5))
}
