// The lowest free entry, the entry with a tag. Entries count from 0 here. What is lent is the part that begins at the first entry, however long it is ("is handed to the rule function as a part"); each function says how much of it there must be.
ghost use Rattle.std.specs.Prelude.{◌≡◌, ◌≤◌, length, position};
ghost use Rattle.tables.specs.Tables.{is_free, has_tag};
ghost use Rattle.tables.specs.Machines.{entry_of, entries_of};

use crate::rows;
use sets::Tag;

// The lowest free entry of a replica's 240 words.
pub fn free_entry(l: &[u32]) -> Option<usize>
    requires { 240 ≤ length l.now }
    ensures { result ≡ position is_free (entries_of l.now) }
{
    l[..rows::ENTRY_ROWS]
        .chunks_exact(rows::ENTRY_ROW)
        .position(|row| row[0] == 0)
}

// Whether the entry that a part begins with is in use and has the tag.
#[tactic(auto, using(std::proofs::lemmas::Bool::Decides::nat_tests), unfolding(crate::specs::Machines::entry_of))]
pub fn has_tag(row: &[u32], t: Tag) -> bool
    requires { 20 ≤ length row.now }
    ensures { result ≡ has_tag t (entry_of row.now) }
{
    row[1] == t.number && row[2] == t.client && row[0] != 0
}

// The lowest entry of a replica's 240 words that has the tag.
pub fn tag_place(l: &[u32], t: Tag) -> Option<usize>
    requires { 240 ≤ length l.now }
    ensures { result ≡ position (has_tag t) (entries_of l.now) }
{
    l[..rows::ENTRY_ROWS]
        .chunks_exact(rows::ENTRY_ROW)
        .position(|row| has_tag(row, t))
}
