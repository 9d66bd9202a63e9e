// The client's rule: what a reply leads to. A row holds any word as its phase and a message as its kind, so both are told apart by number, as document 01 asks.
ghost use Rattle.std.specs.Prelude.{◌≡◌, ◌≤◌};
ghost use Rattle.sets.specs.Tags.{against};
ghost use Rattle.rules.specs.Client.{awaited, enough_for, is_stale, gathered, raised, heard, chosen, turned, outcome};
ghost use Rattle.rules.specs.Inner.{Sender, ClientAble};

use crate::{Outcome, quorums};
use sets::Tag;
use std::cmp::Ordering;
use tables::{Client, Conf, Message};

// The kind of reply that a phase awaits; an idle client awaits kind 0, which no message has.
#[tactic(auto, using(std::proofs::lemmas::Bool::Decides::nat_tests), unfolding(crate::specs::Client::awaited))]
fn awaits(phase: u32) -> u32
    ensures { result ≡ awaited phase }
{
    match phase {
        1 => 5,
        2 => 6,
        3 => 12,
        4 => 7,
        5 => 13,
        6 => 8,
        _ => 0,
    }
}

// Whether the parties in s are enough for a phase.
#[tactic(auto, using(std::proofs::lemmas::Bool::Decides::nat_tests), unfolding(crate::specs::Client::enough_for))]
fn enough(k: Conf, phase: u32, s: u32) -> bool
    requires { (k.f ≤ 3) × (k.columns ≤ 31) × (k.directories ≤ 31) }
    ensures { result ≡ enough_for k phase s }
{
    match phase {
        1 | 4 => quorums::can_read(k, s),
        2 | 6 => quorums::can_write(k, s),
        5 => k.f + 1 <= sets::size_of(s),
        _ => true,
    }
}

#[tactic(auto, using(std::proofs::lemmas::Bool::Decides::nat_tests), unfolding(crate::specs::Client::is_stale))]
fn stale(w: Client, x: Message) -> bool
    requires { Sender x.sender }
    ensures { result ≡ is_stale w x }
{
    x.kind != awaits(w.phase) || x.number != w.number || sets::is_in(w.answered, x.sender)
}

// Phase 1 hears tag t and set s; a is the answered set.
fn gather(w: Client, a: u32, t: Tag, s: u32) -> Client
    ensures { result ≡ gathered w a t s (against t w.tag) }
{
    let y = Client { answered: a, ..w };
    match sets::compare(t, w.tag) {
        Ordering::Greater => Client {
            replicas: s,
            tag: t,
            ..y
        },
        Ordering::Equal => Client {
            replicas: sets::joined(w.replicas, s),
            ..y
        },
        Ordering::Less => y,
    }
}

// Phase 4 hears tag t.
fn raise(w: Client, a: u32, t: Tag) -> Client
    ensures { result ≡ raised w a t (against t w.tag) }
{
    let y = Client { answered: a, ..w };
    match sets::compare(t, w.tag) {
        Ordering::Greater => Client { tag: t, ..y },
        _ => y,
    }
}

// The row with the reply counted in.
#[tactic(auto, using(std::proofs::lemmas::Bool::Decides::nat_tests), unfolding(crate::specs::Client::heard))]
pub fn hear(w: Client, x: Message) -> Client
    requires { Sender x.sender }
    ensures { result ≡ heard w x }
{
    let a = sets::added(w.answered, x.sender);
    match w.phase {
        1 => gather(w, a, x.tag, x.set),
        4 => raise(w, a, x.tag),
        _ => Client { answered: a, ..w },
    }
}

// The tag of a write, or SPENT at top.
#[tactic(auto, using(std::proofs::lemmas::Bool::Decides::nat_tests), unfolding(crate::specs::Client::chosen))]
fn choose(top: u32, own: u32, t: Tag) -> Outcome
    ensures { result ≡ chosen top own t }
{
    if top <= t.number {
        return Outcome::Spent;
    }
    Outcome::Next(Tag {
        number: t.number + 1,
        client: own,
    })
}

// Enough have answered: w has heard the reply; in phase 3 its set word is a mark.
#[tactic(auto, using(std::proofs::lemmas::Bool::Decides::nat_tests), unfolding(crate::specs::Client::turned))]
fn turn(k: Conf, own: u32, w: Client, x: Message) -> Outcome
    ensures { result ≡ turned k own w x }
{
    match w.phase {
        3 => Outcome::ReadEnded(x.tag, x.set),
        4 => choose(k.top, own, w.tag),
        6 => Outcome::WriteEnded(w.tag),
        _ => Outcome::Next(w.tag),
    }
}

// What a reply leads to at client `own`.
#[tactic(auto, using(std::proofs::lemmas::Bool::Decides::nat_tests), unfolding(crate::specs::Client::outcome))]
pub fn outcome_of(k: Conf, own: u32, w: Client, x: Message) -> Outcome
    requires { ClientAble k w x }
    ensures { result ≡ outcome k own w x }
{
    if stale(w, x) {
        return Outcome::Stale;
    }
    let y = hear(w, x);
    if enough(k, w.phase, y.answered) {
        return turn(k, own, y, x);
    }
    Outcome::Waiting
}
