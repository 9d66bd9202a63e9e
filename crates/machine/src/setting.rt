// Set-up.
ghost use Rattle.std.specs.Prelude.{◌≡◌, [], ◌++◌, ◌≤◌, drop, replicate, true};
ghost use Rattle.tables.specs.Layouts.{extent};
ghost use Rattle.tables.specs.Inner.{Fits};
ghost use Rattle.inspect.specs.Good.{good_numbers};
ghost use Rattle.tables.specs.Words.{words};
ghost use Rattle.tables.specs.Machines.{machine_of};
ghost use Rattle.machine.specs.Calls.{set_up};
ghost use Rattle.machine.specs.SetUp.{new_machine};
ghost use Rattle.machine.specs.Buffers.{call, Gives};
ghost use Rattle.machine.specs.Told.{told};
ghost use Rattle.machine.specs.Inner.{blank, with_directories, with_replicas};

use crate::codes;
use crate::refusal::Refusal;
use inspect::fields;
use rules::{Answer, answers};
use sets::FIRST;
use tables::{Conf, Directory, Entry, Layout, places, rows};

// Zeroes the words of the machine.
fn zero(lay: Layout, m: &mut [u32])
    requires { Fits lay m.old }
    ensures { m.new ≡ replicate (extent lay) 0 ++ drop (extent lay) m.old }
{
    let end = places::extent(lay);
    m[..end].fill(0);
}

// Zeroes all but the numbers.
#[tactic(auto, using(crate::proofs::Laid::cleared))]
fn clear(lay: Layout, m: &mut [u32], k: Conf)
    requires { Fits lay m.old }
    ensures { m.new ≡ words (blank lay.directories k) (drop (extent lay) m.old) }
{
    zero(lay, m);
    let head = [
        k.clients,
        k.directories,
        k.replicas,
        k.f,
        k.rq,
        k.wq,
        k.top,
        k.columns,
    ];
    rows::copy_in(m, &head);
}

// The first n directories get the row x. Each table has a writer of its own, so each has its loop.
fn directories(lay: Layout, m: &mut [u32], n: u32, x: Directory)
    requires { Fits lay m.old × (n ≤ lay.directories) }
    ensures { m.new ≡ words (with_directories (machine_of lay m.old) n x) (drop (extent lay) m.old) }
{
    for i in 0..n as usize {
        places::set_directory(lay, m, i, x);
    }
}

// The first n replicas get the entry x as their first.
fn replicas(lay: Layout, m: &mut [u32], n: u32, x: Entry)
    requires { Fits lay m.old × (n ≤ 7) }
    ensures { m.new ≡ words (with_replicas (machine_of lay m.old) n x) (drop (extent lay) m.old) }
{
    for i in 0..n as usize {
        places::set_entry(lay, m, i, 0, x);
    }
}

// The machine of set-up, in place of any words.
fn lay_out(lay: Layout, m: &mut [u32], k: Conf, page: [u32; 16])
    requires { Fits lay m.old × (good_numbers lay.directories k ≡ true) }
    ensures { m.new ≡ words (new_machine lay.directories k page) (drop (extent lay) m.old) }
{
    clear(lay, m, k);
    let x = Directory {
        down: 0,
        tag: FIRST,
        set: sets::all_of(k.replicas),
    };
    directories(lay, m, k.directories, x);
    let e = Entry {
        state: 2,
        tag: FIRST,
        spare: 0,
        page,
    };
    replicas(lay, m, k.replicas, e);
}

pub(crate) fn set_up(lay: Layout, m: &mut [u32], k: Conf, page: &[u32]) -> Result<Answer, Refusal>
    requires { lay.directories ≤ 16 }
    ensures { Gives (call lay (set_up k page.now) m.old) (told result) [] m.new }
{
    codes::ask_size(lay, m, page.len())?;
    if !fields::numbers(lay.directories as u32, k) {
        return Err(Refusal::BadArgument);
    }
    lay_out(lay, m, k, rows::page_at(page));
    Ok(answers::coded(0))
}
