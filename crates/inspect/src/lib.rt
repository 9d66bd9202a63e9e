// Whether a machine is bad, document 01, "A bad machine". It runs on every call: what a kind or a phase may hold is worked out once, and the first bad row of a table ends it.
#![tactic(auto)]

ghost use Rattle.std.specs.Prelude.{◌≡◌};
ghost use Rattle.tables.specs.Inner.{Fits};
ghost use Rattle.inspect.specs.Good.{good};

use tables::{Layout, places, rows};

pub mod fields; // fields.rt: numbers, tags, sets, runs of zeros
mod limits; // limits.rt: what a row may hold, by kind and by phase
mod row; // row.rt: one row
mod entries; // entries.rt: the entries of one replica
mod table; // table.rt: every row of a table

// Whether the machine that a buffer begins with is not bad.
pub fn is_good(lay: Layout, m: &[u32]) -> bool
    requires { Fits lay m.now }
    ensures { result ≡ good lay m.now }
{
    let k = rows::conf_at(m);
    if !fields::numbers(lay.directories as u32, k) {
        return false;
    }
    let flags = places::flags_at(lay);
    let gap = places::gap_at(lay);
    let entries = places::entries_at(lay, 0);
    let slots = places::slots_at(lay);
    let end = places::extent(lay);
    fields::zero(&m[places::SPARE..places::CLIENTS])
        & table::clients(k, &m[places::CLIENTS..places::DIRECTORIES])
        & table::directories(k, &m[places::DIRECTORIES..flags])
        & fields::zero(&m[gap..entries])
        & table::replicas(k, &m[flags..gap], &m[entries..slots])
        & table::slots(k, &m[slots..end])
}
