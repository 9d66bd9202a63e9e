// Directories in columns, in the layout of 16 directory rows: which numbers are taken, which machines are bad, the buffer's length, and operations on 16 directories in 4 columns.
ghost use Rattle.std.specs.Prelude.{◌<◌, length};

use crate::{Words, say, set_up};
use machine::{Base, Wide};
use std::io;
use tables::Conf;

fn conf(directories: u32, rq: u32, wq: u32, columns: u32) -> Conf {
    Conf {
        columns,
        ..set_up::conf(directories, 3, 1, rq, wq, 99)
    }
}

fn code(m: &mut [u32], directories: u32, columns: u32) -> u32 {
    set_up::code::<Wide>(m, conf(directories, 0, 0, columns))
}

// What the other layout has room for, or takes.
fn other(rt: &impl Print, m: &mut [u32]) -> io::Result<()> {
    say::line(
        rt,
        b"5 rows, nd 6",
        set_up::code::<Base>(m, conf(6, 6, 6, 0)),
    )?;
    say::line(
        rt,
        b"5 rows, nd 5 in 1 column",
        set_up::code::<Base>(m, conf(5, 5, 5, 1)),
    )
}

fn counted(m: &mut [u32], directories: u32, rq: u32, wq: u32, columns: u32) -> u32 {
    set_up::code::<Wide>(m, conf(directories, rq, wq, columns))
}

fn counts(rt: &impl Print, m: &mut [u32]) -> io::Result<()> {
    say::line(
        rt,
        b"16 rows, nd 12, rq 12, wq 12",
        counted(m, 12, 12, 12, 0),
    )?;
    say::line(
        rt,
        b"16 rows, nd 12 in 3 columns, rq 1",
        counted(m, 12, 1, 0, 3),
    )?;
    say::line(
        rt,
        b"16 rows, nd 12 in 3 columns, wq 1",
        counted(m, 12, 0, 1, 3),
    )
}

fn uneven(rt: &impl Print, m: &mut [u32]) -> io::Result<()> {
    say::line(rt, b"16 rows, nd 12 in 0 columns", code(m, 12, 0))?;
    say::line(rt, b"16 rows, nd 12 in 5 columns", code(m, 12, 5))?;
    say::line(rt, b"16 rows, nd 12 in 13 columns", code(m, 12, 13))
}

fn even(rt: &impl Print, m: &mut [u32]) -> io::Result<()> {
    say::line(rt, b"16 rows, nd 12 in 1 column", code(m, 12, 1))?;
    say::line(rt, b"16 rows, nd 12 in 12 columns", code(m, 12, 12))
}

fn rows(rt: &impl Print, m: &mut [u32]) -> io::Result<()> {
    say::line(rt, b"16 rows, nd 1 in 1 column", code(m, 1, 1))?;
    say::line(rt, b"16 rows, nd 17 in 17 columns", code(m, 17, 17))?;
    say::line(rt, b"16 rows, nd 16 in 4 columns", code(m, 16, 4))
}

// Report's code with one word changed.
fn with_word(m: &mut [u32], place: usize, value: u32) -> u32
    requires { place < length m.old }
{
    let old = m[place];
    m[place] = value;
    let code = machine::report::<Wide>(m).code;
    m[place] = old;
    code
}

fn columns(rt: &impl Print, m: &mut Words) -> io::Result<()> {
    say::line(rt, b"a machine with 8 for 4 columns", with_word(m, 7, 8))?;
    say::line(rt, b"with no columns", with_word(m, 7, 0))?;
    say::line(rt, b"with 3 columns of 16", with_word(m, 7, 3))
}

fn spares(rt: &impl Print, m: &mut Words) -> io::Result<()> {
    say::line(rt, b"with an rq", with_word(m, 4, 1))?;
    say::line(rt, b"with a spare word, 8", with_word(m, 8, 1))?;
    say::line(rt, b"with a spare word, 279", with_word(m, 279, 1))
}

fn tables(rt: &impl Print, m: &mut Words) -> io::Result<()> {
    say::line(
        rt,
        b"with a set above its replicas, directory 16",
        with_word(m, 271, 8),
    )?;
    say::line(
        rt,
        b"with a last word of the last slot",
        with_word(m, 5035, 1),
    )?;
    say::line(rt, b"with a word after the machine", with_word(m, 5036, 1))
}

fn buffers(rt: &impl Print, m: &mut Words) -> io::Result<()> {
    say::line(
        rt,
        b"16 rows, start read in a buffer of 5,035 words",
        set_up::read_in::<Wide>(m, 5035),
    )?;
    say::line(
        rt,
        b"16 rows, start read in a buffer of 5,036 words",
        set_up::read_in::<Wide>(m, 5036),
    )
}

// Slots 1 to 64 are delivered in turn until an operation ends; its code.
fn finish(m: &mut [u32], page: &mut [u32]) -> u32 {
    for n in 0..640u32 {
        let code = machine::deliver::<Wide>(m, n % 64 + 1, page).code;
        if (code == 1) | (code == 2) {
            return code;
        }
    }
    0
}

fn read(rt: &impl Print, m: &mut [u32]) -> io::Result<()> {
    let mut page = [0u32; 16];
    say::line(rt, b"16 rows, the read ends", finish(m, &mut page))?;
    say::line(rt, b"its page begins with", page[0])
}

fn write(rt: &impl Print, m: &mut [u32]) -> io::Result<()> {
    let mut page = [0u32; 16];
    say::line(
        rt,
        b"16 rows, start write",
        machine::start_write::<Wide>(m, 2, &[9u32; 16]).code,
    )?;
    say::line(rt, b"16 rows, the write ends", finish(m, &mut page))
}

fn again(rt: &impl Print, m: &mut [u32]) -> io::Result<()> {
    say::line(
        rt,
        b"16 rows, start read",
        machine::start_read::<Wide>(m, 1).code,
    )?;
    read(rt, m)
}

fn told(rt: &impl Print, m: &mut [u32]) -> io::Result<()> {
    say::line(
        rt,
        b"16 rows, crash of directory 16",
        machine::crash::<Wide>(m, 2, 16).code,
    )?;
    say::line(
        rt,
        b"16 rows, parties down",
        machine::report::<Wide>(m).down,
    )
}

fn numbers(rt: &impl Print, m: &mut [u32]) -> io::Result<()> {
    other(rt, m)?;
    counts(rt, m)?;
    uneven(rt, m)?;
    even(rt, m)?;
    rows(rt, m)
}

fn words(rt: &impl Print, m: &mut Words) -> io::Result<()> {
    columns(rt, m)?;
    spares(rt, m)?;
    tables(rt, m)
}

pub fn run(rt: &impl Print, m: &mut Words) -> io::Result<()> {
    numbers(rt, m)?;
    words(rt, m)?;
    buffers(rt, m)?;
    read(rt, m)?;
    write(rt, m)?;
    again(rt, m)?;
    told(rt, m)
}
