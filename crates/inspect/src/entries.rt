// The entries of one replica: 12 rows of 20 words.
ghost use Rattle.std.specs.Prelude.{◌≡◌, map};
ghost use Rattle.tables.specs.Rows.{some?};
ghost use Rattle.tables.specs.Tables.{is_secured, has_tag};
ghost use Rattle.tables.specs.Machines.{entry_of, entries_of};
ghost use Rattle.inspect.specs.Inner.{good_after, good_entries, mark_of, marked_by, Marked};

use crate::fields;
use sets::Tag;
use tables::{Conf, rows, search};

// The words of an entry.
type Row = [u32; rows::ENTRY_ROW];

// Whether one of the entries has the tag.
fn some_has(l: &[Row], t: Tag) -> bool
    ensures { result ≡ some? (has_tag t) (map entry_of l.now) }
{
    l.iter().any(|row| search::has_tag(row, t))
}

// The mark of a tag, one of 32.
fn mark(t: Tag) -> u32
    ensures { result ≡ mark_of t }
{
    t.number % 4 * 8 + t.client % 8 + 1
}

// The marks, and that of an entry that is in use.
#[tactic(auto, unfolding(crate::specs::Inner::marked_by))]
fn marked(row: &Row, marks: u32) -> u32
    ensures { result ≡ marked_by (entry_of row.now) marks }
{
    let e = rows::entry_at(row);
    if e.state == 0 {
        marks
    } else {
        sets::added(marks, mark(e.tag))
    }
}

// Whether one of the entries has the tag: without its mark none has, and none is searched.
fn stands_in(l: &[Row], marks: u32, t: Tag) -> bool
    requires { Marked (map entry_of l.now) marks }
    ensures { result ≡ some? (has_tag t) (map entry_of l.now) }
{
    sets::is_in(marks, mark(t)) && some_has(l, t)
}

// Whether an entry is good and its tag stands in none of those before it.
#[tactic(auto, using(crate::proofs::Zeros::entry_zeros), unfolding(crate::specs::Good::good_entry, crate::specs::Inner::good_after, crate::specs::Inner::fresh_after))]
fn entry(k: Conf, before: &[Row], row: &Row, marks: u32) -> bool
    requires { Marked (map entry_of before.now) marks }
    ensures { result ≡ good_after k (map entry_of before.now) (entry_of row.now) }
{
    let e = rows::entry_at(row);
    if e.state == 0 {
        return fields::zero(row);
    }
    (e.state <= 2) & (e.spare == 0) && (fields::tag(k, e.tag) && !stands_in(before, marks, e.tag))
}

// Every entry is good, and no tag stands in two.
pub(crate) fn all(k: Conf, l: &[u32; rows::ENTRY_ROWS]) -> bool
    ensures { result ≡ good_entries k (entries_of l.now) }
{
    let (entries, _) = l.as_chunks::<{ rows::ENTRY_ROW }>();
    let mut marks = 0;
    for (j, row) in entries.iter().enumerate() {
        if !entry(k, &entries[..j], row, marks) {
            return false;
        }
        marks = marked(row, marks);
    }
    true
}

pub(crate) fn some_secured(l: &[u32; rows::ENTRY_ROWS]) -> bool
    ensures { result ≡ some? is_secured (entries_of l.now) }
{
    let (entries, _) = l.as_chunks::<{ rows::ENTRY_ROW }>();
    entries.iter().any(|row| row[0] == 2)
}
