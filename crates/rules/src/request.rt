// The client's row after a reply, and what it sends. A row holds any word as its phase, so the phases are told apart by number, as document 01 asks.
ghost use Rattle.std.specs.Prelude.{◌≡◌, ◌<◌, ◌≤◌};
ghost use Rattle.rules.specs.Client.{idle, moved, started, client_after, request, secures, client_post};
ghost use Rattle.rules.specs.Inner.{AfterAble, Few};

use crate::{Outcome, client};
use mail::{Post, posts};
use sets::{FIRST, Tag};
use tables::{Client, Conf, Message, blank};

// The row of a client whose operation has ended.
fn rest(w: Client) -> Client
    ensures { result ≡ idle w }
{
    Client {
        phase: 0,
        answered: 0,
        replicas: 0,
        tag: FIRST,
        page: blank::no_page(),
        ..w
    }
}

// The row in its next phase.
fn advance(w: Client, t: Tag) -> Client
    requires { (w.number < 4294967295) × (w.phase ≤ 6) }
    ensures { result ≡ moved w t }
{
    Client {
        phase: w.phase + 1,
        number: w.number + 1,
        answered: 0,
        replicas: if w.phase == 5 { w.answered } else { w.replicas },
        tag: t,
        ..w
    }
}

// The row of a client that starts: a read in phase 1, a write in phase 4.
pub fn start(w: Client, phase: u32, page: [u32; 16]) -> Client
    requires { w.number < 4294967295 }
    ensures { result ≡ started w phase page }
{
    Client {
        phase,
        number: w.number + 1,
        answered: 0,
        replicas: 0,
        tag: FIRST,
        page,
        ..w
    }
}

#[tactic(auto, using(crate::proofs::Heard::heard_keeps), unfolding(crate::specs::Client::client_after))]
pub fn after(w: Client, x: Message, o: Outcome) -> Client
    requires { AfterAble w x o }
    ensures { result ≡ client_after w x o }
{
    match o {
        Outcome::Stale => w,
        Outcome::Waiting => client::hear(w, x),
        Outcome::Next(t) => advance(client::hear(w, x), t),
        Outcome::ReadEnded(_, _) | Outcome::WriteEnded(_) | Outcome::Spent => rest(w),
    }
}

// The request of the row's phase.
#[tactic(auto, using(std::proofs::lemmas::Bool::Decides::nat_tests), unfolding(crate::specs::Client::request))]
pub fn request_of(k: Conf, own: u32, w: Client) -> Post
    requires { Few k }
    ensures { result ≡ request k own w }
{
    let directories = sets::all_of(k.directories);
    match w.phase {
        1 => posts::bare(1, own, FIRST, 0, w.number, directories),
        2 => posts::bare(2, own, w.tag, w.replicas, w.number, directories),
        3 => posts::bare(9, own, w.tag, 0, w.number, w.replicas),
        4 => posts::bare(3, own, FIRST, 0, w.number, directories),
        5 => posts::paged(
            10,
            own,
            w.tag,
            0,
            w.number,
            w.page,
            sets::all_of(k.replicas),
        ),
        6 => posts::bare(4, own, w.tag, w.replicas, w.number, directories),
        _ => posts::nothing(),
    }
}

// Secure, to each in the set.
#[tactic(auto, unfolding(crate::specs::Client::secures))]
fn secures_of(own: u32, w: Client) -> Post
    ensures { result ≡ secures own w }
{
    posts::bare(11, own, w.tag, 0, w.number, w.replicas)
}

// What is sent, from the row before and the row afterwards.
#[tactic(auto, unfolding(crate::specs::Client::client_post))]
pub fn post(k: Conf, own: u32, w: Client, y: Client, o: Outcome) -> Post
    requires { Few k }
    ensures { result ≡ client_post k own w y o }
{
    match o {
        Outcome::Next(_) => request_of(k, own, y),
        Outcome::WriteEnded(_) => secures_of(own, w),
        Outcome::Stale | Outcome::Waiting | Outcome::ReadEnded(_, _) | Outcome::Spent => {
            posts::nothing()
        }
    }
}
