// The directory's rule. A message holds any word as its kind, so the kinds are told apart by number, as document 01 asks.
ghost use Rattle.std.specs.Prelude.{◌≡◌, ◌≤◌};
ghost use Rattle.sets.specs.Tags.{against};
ghost use Rattle.rules.specs.Directory.{told, noticed, directory_after, reply, directory_post};
ghost use Rattle.rules.specs.Inner.{Sender, DirectoryAble};

use mail::{Post, posts};
use sets::{FIRST, Tag};
use std::cmp::Ordering;
use tables::{Directory, Message};

// Kinds 2 and 4.
fn tell(f: u32, d: Directory, t: Tag, s: u32) -> Directory
    requires { f ≤ 3 }
    ensures { result ≡ told f d t s (against t d.tag) }
{
    match sets::compare(t, d.tag) {
        Ordering::Equal => Directory {
            set: sets::joined(d.set, s),
            ..d
        },
        Ordering::Greater if f + 1 <= sets::size_of(s) => Directory {
            tag: t,
            set: s,
            ..d
        },
        _ => d,
    }
}

// Kind 14 from replica r.
fn notice(d: Directory, t: Tag, r: u32) -> Directory
    requires { Sender r }
    ensures { result ≡ noticed d r (against t d.tag) }
{
    match sets::compare(t, d.tag) {
        Ordering::Equal => Directory {
            set: sets::added(d.set, r),
            ..d
        },
        _ => d,
    }
}

// The row after a message.
#[tactic(auto, using(std::proofs::lemmas::Bool::Decides::nat_tests), unfolding(crate::specs::Directory::directory_after))]
pub fn after(f: u32, d: Directory, x: Message) -> Directory
    requires { DirectoryAble f x }
    ensures { result ≡ directory_after f d x }
{
    match x.kind {
        2 | 4 => tell(f, d, x.tag, x.set),
        14 => notice(d, x.tag, x.sender),
        _ => d,
    }
}

// A reply to the sender, under the message's number.
fn answer(x: Message, kind: u32, t: Tag, set: u32) -> Post
    requires { Sender x.sender }
    ensures { result ≡ reply x kind t set }
{
    posts::bare(kind, x.receiver, t, set, x.number, sets::only_of(x.sender))
}

// What it sends, from the row before the message.
#[tactic(auto, using(std::proofs::lemmas::Bool::Decides::nat_tests), unfolding(crate::specs::Directory::directory_post))]
pub fn post(d: Directory, x: Message) -> Post
    requires { Sender x.sender }
    ensures { result ≡ directory_post d x }
{
    match x.kind {
        1 => answer(x, 5, d.tag, d.set),
        2 => answer(x, 6, FIRST, 0),
        3 => answer(x, 7, d.tag, 0),
        4 => answer(x, 8, FIRST, 0),
        _ => posts::nothing(),
    }
}
