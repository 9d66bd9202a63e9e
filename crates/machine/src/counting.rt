// Report: waiting messages and parties down.
ghost use Rattle.std.specs.Prelude.{◌≡◌, ◌≤◌};
ghost use Rattle.tables.specs.Inner.{Fits};
ghost use Rattle.tables.specs.Machines.{machine_of};
ghost use Rattle.machine.specs.Told.{told_counts};
ghost use Rattle.machine.specs.Buffers.{reported};
ghost use Rattle.machine.specs.Inner.{RowsIn, rows_down, counts};

use crate::refusal::Refusal;
use crate::{Counts, codes, send};
use tables::{Layout, places, rows};

// How many of n rows of w words begin with 1.
#[tactic(auto, unfolding(crate::specs::Inner::rows_down))]
fn down_rows(l: &[u32], w: usize, n: usize) -> u32
    requires { RowsIn l.now w n }
    ensures { result ≡ rows_down l.now w n }
{
    (0..n).filter(|i| l[*i * w] == 1).count() as u32
}

// The counts of a machine.
fn counts(lay: Layout, m: &[u32]) -> Counts
    requires { Fits lay m.now }
    ensures { result ≡ counts (machine_of lay m.now) }
{
    let empty = send::empty_slots(lay, m);
    let flags = places::flags_at(lay);
    let clients = down_rows(&m[places::CLIENTS..], rows::CLIENT_ROW, 8);
    let directories = down_rows(
        &m[places::DIRECTORIES..],
        rows::DIRECTORY_ROW,
        lay.directories,
    );
    let replicas = down_rows(&m[flags..], 1, 7);
    Counts {
        code: 0,
        waiting: (128 - empty) as u32,
        down: clients + directories + replicas,
    }
}

// Waiting messages and parties down.
pub(crate) fn report(lay: Layout, m: &[u32]) -> Result<Counts, Refusal>
    requires { lay.directories ≤ 16 }
    ensures { told_counts result ≡ reported lay m.now }
{
    codes::ask(lay, m, 16)?;
    Ok(counts(lay, m))
}
