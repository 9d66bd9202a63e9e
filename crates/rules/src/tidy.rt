// Tidy, on the 240 words of a replica's entries.
ghost use Rattle.std.specs.Prelude.{◌≡◌, ◌≤◌, length};
ghost use Rattle.tables.specs.Machines.{entries_of};
ghost use Rattle.tables.specs.Inner.{with_entries};
ghost use Rattle.rules.specs.Replica.{tidied};

use crate::replica;
use tables::blank;

// Frees every entry whose tag is below the highest secured tag: the one that has it stays, so it is asked once.
pub fn tidy_in(l: &mut [u32])
    requires { 240 ≤ length l.old }
    ensures { l.new ≡ with_entries l.old (tidied (entries_of l.old)) }
{
    let high = replica::highest_of(l);
    for j in 0..12 {
        if sets::compare(replica::entry_at(l, j).tag, high).is_lt() {
            replica::put_in(l, j, blank::no_entry());
        }
    }
}
