// The replica's rule, on the 240 words of its entries, lent as the part that begins there ("is handed to the rule function as a part"). Entries count from 0 here. A message holds any word as its kind, so the kinds are told apart by number, as document 01 asks.
ghost use Rattle.std.specs.Prelude.{◌≡◌, ◌≤◌, ◌<◌, length, find, get_or, set};
ghost use Rattle.tables.specs.Rows.{put_first};
ghost use Rattle.tables.specs.Tables.{no_entry, is_free, has_tag};
ghost use Rattle.tables.specs.Machines.{entries_of};
ghost use Rattle.tables.specs.Inner.{with_entries};
ghost use Rattle.rules.specs.Replica.{entry, entry_with, highest, higher_of, secure, write, hear_gossip, read, mark, replica_after, replica_post, is_full, gossip_post};
ghost use Rattle.rules.specs.Inner.{Sender, ReplicaAble};

use mail::{Post, posts};
use sets::{FIRST, Tag};
use tables::{Entry, Message, blank, rows, search};

// The higher of t and an entry's tag, where the entry is secured.
#[tactic(auto, using(std::proofs::lemmas::Bool::Decides::nat_tests), unfolding(crate::specs::Replica::higher_of))]
fn higher_of(t: Tag, e: Entry) -> Tag
    ensures { result ≡ higher_of t e }
{
    if e.state == 2 && sets::compare(t, e.tag).is_lt() {
        return e.tag;
    }
    t
}

// Entry j.
#[tactic(auto, using(crate::proofs::Stock::entry_got))]
pub(crate) fn entry_at(l: &[u32], j: usize) -> Entry
    requires { (240 ≤ length l.now) × (j < 12) }
    ensures { result ≡ get_or (entries_of l.now) j no_entry }
{
    rows::entry_at(&l[j * rows::ENTRY_ROW..])
}

// The highest secured tag: from the last entry to the first.
#[tactic(auto, using(crate::proofs::Entries::highest_none, crate::proofs::Entries::highest_more, crate::proofs::Entries::highest_end))]
pub fn highest_of(l: &[u32]) -> Tag
    requires { 240 ≤ length l.now }
    ensures { result ≡ highest (entries_of l.now) }
{
    let mut t = FIRST;
    for j in (0..12).rev() {
        t = higher_of(t, entry_at(l, j));
    }
    t
}

// The entry that has the tag.
#[tactic(auto, using(crate::proofs::Entries::inside, crate::proofs::Entries::found, crate::proofs::Entries::not_found))]
fn entry_of(l: &[u32], t: Tag) -> Option<Entry>
    requires { 240 ≤ length l.now }
    ensures { result ≡ find (has_tag t) (entries_of l.now) }
{
    let j = search::tag_place(l, t)?;
    Some(entry_at(l, j))
}

// The highest secured entry, or a free one where none is secured.
#[tactic(auto, using(crate::proofs::Entries::entry_with_find))]
fn highest_entry(l: &[u32]) -> Entry
    requires { 240 ≤ length l.now }
    ensures { result ≡ entry_with (highest (entries_of l.now)) (entries_of l.now) }
{
    entry_of(l, highest_of(l)).unwrap_or(blank::no_entry())
}

// What a read finds: an entry, and the mark that says which one.
#[derive(Clone, Copy)]
pub struct Found {
    pub entry: Entry,
    pub mark: u32,
}

// Kind 9: the entry of the tag, or else the highest secured one.
#[tactic(auto, using(crate::proofs::Entries::read_found, crate::proofs::Entries::read_missing))]
pub fn read_in(l: &[u32], t: Tag) -> Found
    requires { 240 ≤ length l.now }
    ensures { result ≡ record { entry = read t (entries_of l.now); mark = mark t (entries_of l.now) } }
{
    match entry_of(l, t) {
        Some(entry) => Found { entry, mark: 1 },
        None => Found {
            entry: highest_entry(l),
            mark: 0,
        },
    }
}

// Entry j becomes e, where there is one.
#[tactic(auto, using(crate::proofs::Stock::entry_written, crate::proofs::Stock::entry_past))]
pub fn put_in(l: &mut [u32], j: usize, e: Entry)
    requires { 240 ≤ length l.old }
    ensures { l.new ≡ with_entries l.old (set (entries_of l.old) j e) }
{
    if j < 12 {
        rows::put_entry(&mut l[j * rows::ENTRY_ROW..], e);
    }
}

// Tag and page are put into the lowest free entry.
#[tactic(auto, using(crate::proofs::Stock::not_stored))]
fn store(l: &mut [u32], state: u32, tag: Tag, page: [u32; 16])
    requires { 240 ≤ length l.old }
    ensures { l.new ≡ with_entries l.old (put_first is_free (entry state tag page) (entries_of l.old)) }
{
    if let Some(j) = search::free_entry(l) {
        let e = Entry {
            state,
            tag,
            spare: 0,
            page,
        };
        put_in(l, j, e);
    }
}

// Kind 11.
#[tactic(auto, using(crate::proofs::Entries::inside, crate::proofs::Entries::not_secures))]
fn secure_in(l: &mut [u32], t: Tag)
    requires { 240 ≤ length l.old }
    ensures { l.new ≡ with_entries l.old (secure t (entries_of l.old)) }
{
    if let Some(j) = search::tag_place(l, t) {
        let e = entry_at(l, j);
        put_in(l, j, Entry { state: 2, ..e });
    }
}

// Kind 10.
#[tactic(auto, using(crate::proofs::Entries::there_by, crate::proofs::Stock::with_own), unfolding(crate::specs::Replica::write))]
fn write_in(l: &mut [u32], t: Tag, page: [u32; 16])
    requires { 240 ≤ length l.old }
    ensures { l.new ≡ with_entries l.old (write t page (entries_of l.old)) }
{
    if search::tag_place(l, t).is_none() {
        store(l, 1, t, page);
    }
}

// Kind 15.
#[tactic(auto, using(crate::proofs::Entries::there_by), unfolding(crate::specs::Replica::hear_gossip))]
fn gossip_in(l: &mut [u32], t: Tag, page: [u32; 16])
    requires { 240 ≤ length l.old }
    ensures { l.new ≡ with_entries l.old (hear_gossip t page (entries_of l.old)) }
{
    if search::tag_place(l, t).is_none() {
        store(l, 2, t, page);
    } else {
        secure_in(l, t);
    }
}

// The entries after a message.
#[tactic(auto, using(std::proofs::lemmas::Bool::Decides::nat_tests, crate::proofs::Stock::with_own), unfolding(crate::specs::Replica::replica_after))]
pub fn take_in(l: &mut [u32], x: Message)
    requires { 240 ≤ length l.old }
    ensures { l.new ≡ with_entries l.old (replica_after (entries_of l.old) x) }
{
    match x.kind {
        10 => write_in(l, x.tag, x.page),
        11 => secure_in(l, x.tag),
        15 => gossip_in(l, x.tag, x.page),
        _ => {}
    }
}

// FULL: a new tag and no free entry.
#[tactic(auto, using(std::proofs::lemmas::Bool::Decides::nat_tests, crate::proofs::Entries::there_by, tables::proofs::Lists::some_position), unfolding(crate::specs::Replica::is_full))]
pub fn full(l: &[u32], x: Message) -> bool
    requires { 240 ≤ length l.now }
    ensures { result ≡ is_full (entries_of l.now) x }
{
    match x.kind {
        10 | 15 => search::tag_place(l, x.tag).is_none() && search::free_entry(l).is_none(),
        _ => false,
    }
}

// What it sends, from the entries before the message.
#[tactic(auto, using(std::proofs::lemmas::Bool::Decides::nat_tests), unfolding(crate::specs::Replica::replica_post))]
pub fn post(nd: u32, l: &[u32], x: Message) -> Post
    requires { ReplicaAble nd l.now x }
    ensures { result ≡ replica_post nd (entries_of l.now) x }
{
    match x.kind {
        9 => {
            let Found { entry, mark } = read_in(l, x.tag);
            posts::paged(
                12,
                x.receiver,
                entry.tag,
                mark,
                x.number,
                entry.page,
                sets::only_of(x.sender),
            )
        }
        10 => posts::bare(13, x.receiver, FIRST, 0, x.number, sets::only_of(x.sender)),
        15 => posts::bare(14, x.receiver, x.tag, 0, 0, sets::all_of(nd)),
        _ => posts::nothing(),
    }
}

// Gossip: the highest secured entry.
#[tactic(auto, unfolding(crate::specs::Replica::gossip_post))]
pub fn gossip(l: &[u32], from: u32, to: u32) -> Post
    requires { (240 ≤ length l.now) × Sender to }
    ensures { result ≡ gossip_post (entries_of l.now) from to }
{
    let e = highest_entry(l);
    posts::paged(15, from, e.tag, 0, 0, e.page, sets::only_of(to))
}
