// Set-up at the borders of its ranges; buffers and pages of other lengths.
ghost use Rattle.std.specs.Prelude.{◌≤◌, length};

use crate::{Words, say};
use machine::{Base, LaidOut};
use std::io;
use tables::Conf;

pub fn conf(directories: u32, replicas: u32, f: u32, rq: u32, wq: u32, top: u32) -> Conf {
    Conf {
        clients: 2,
        directories,
        replicas,
        f,
        rq,
        wq,
        top,
        columns: 0,
    }
}

// The code of a set-up.
pub fn code<L: LaidOut>(m: &mut [u32], k: Conf) -> u32 {
    machine::set_up::<L>(m, k, &[7u32; 16]).code
}

fn quorums(rt: &impl Print, m: &mut [u32]) -> io::Result<()> {
    say::line(
        rt,
        b"nd 3, rq 1, wq 2",
        code::<Base>(m, conf(3, 3, 1, 1, 2, 9)),
    )?;
    say::line(
        rt,
        b"nd 3, rq 2, wq 2",
        code::<Base>(m, conf(3, 3, 1, 2, 2, 9)),
    )
}

fn replicas(rt: &impl Print, m: &mut [u32]) -> io::Result<()> {
    say::line(
        rt,
        b"nr 2 with f 1",
        code::<Base>(m, conf(3, 2, 1, 2, 2, 9)),
    )?;
    say::line(
        rt,
        b"nr 3 with f 1",
        code::<Base>(m, conf(3, 3, 1, 2, 2, 9)),
    )
}

pub fn numbers(rt: &impl Print, m: &mut [u32]) -> io::Result<()> {
    quorums(rt, m)?;
    replicas(rt, m)
}

// The code of a start read in the first words of a buffer.
pub fn read_in<L: LaidOut>(m: &mut [u32], words: usize) -> u32
    requires { words ≤ length m.old }
{
    machine::start_read::<L>(&mut m[..words], 1).code
}

fn code_in(m: &mut [u32], words: usize) -> u32
    requires { words ≤ length m.old }
{
    code::<Base>(&mut m[..words], conf(3, 3, 1, 2, 2, 9))
}

// The machine is good before each call, so that only the length can be refused.
pub fn buffers(rt: &impl Print, m: &mut Words) -> io::Result<()> {
    say::line(
        rt,
        b"start read in a buffer of 4,991 words",
        read_in::<Base>(m, 4991),
    )?;
    say::line(
        rt,
        b"start read in a buffer of 4,992 words",
        read_in::<Base>(m, 4992),
    )?;
    say::line(rt, b"set-up in a buffer of 4,991 words", code_in(m, 4991))
}

fn start(m: &mut [u32], page: &[u32]) -> u32 {
    machine::start_write::<Base>(m, 2, page).code
}

pub fn pages(rt: &impl Print, m: &mut [u32]) -> io::Result<()> {
    let page = [9u32; 17];
    say::line(
        rt,
        b"start write with a page of 15 words",
        start(m, &page[..15]),
    )?;
    say::line(rt, b"start write with a page of 17 words", start(m, &page))?;
    say::line(
        rt,
        b"start write with a page of 16 words",
        start(m, &page[..16]),
    )
}
