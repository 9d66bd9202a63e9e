// Tags and sets of parties, document 01, "Numbers and parties".
#![tactic(auto)]

ghost use Rattle.std.specs.Prelude.{◌≡◌, ◌≤◌};
ghost use Rattle.sets.specs.Tags.{against};
ghost use Rattle.sets.specs.Sets.{has, size, join, only, with, all};

use std::cmp::Ordering;

// A write's number and the client that chose it, compared by number, then client.
#[derive(Clone, Copy, PartialEq, Eq, PartialOrd, Ord)]
pub struct Tag {
    pub number: u32,
    pub client: u32,
}

// The first tag, and the tag of what has none.
pub const FIRST: Tag = Tag {
    number: 0,
    client: 0,
};

// How a tag stands against another: the derived order, under the paper's definition of it.
pub fn compare(a: Tag, b: Tag) -> Ordering
    ensures { result ≡ against a b }
{
    a.cmp(&b)
}

// How many parties are in s.
pub fn size_of(s: u32) -> u32
    ensures { result ≡ size s }
{
    u32::count_ones(s)
}

// The parties of both.
pub fn joined(a: u32, b: u32) -> u32
    ensures { result ≡ join a b }
{
    a | b
}

// Whether party p is in s.
pub fn is_in(s: u32, p: u32) -> bool
    requires { (1 ≤ p) × (p ≤ 32) }
    ensures { result ≡ has s p }
{
    (s >> (p - 1)) % 2 == 1
}

// The set of one party.
pub fn only_of(p: u32) -> u32
    requires { (1 ≤ p) × (p ≤ 32) }
    ensures { result ≡ only p }
{
    1 << (p - 1)
}

// s and the party p.
pub fn added(s: u32, p: u32) -> u32
    requires { (1 ≤ p) × (p ≤ 32) }
    ensures { result ≡ with s p }
{
    s | only_of(p)
}

// The parties 1 to n.
pub fn all_of(n: u32) -> u32
    requires { n ≤ 31 }
    ensures { result ≡ all n }
{
    (1 << n) - 1
}
