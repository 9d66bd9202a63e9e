// Deliver: the message in a slot is removed, and its receiver takes it by its rule. Slots count from 0 here.
ghost use Rattle.std.specs.Prelude.{◌≡◌, suc, ◌-◌, ◌^◌, ◌≤◌, ◌<◌, length, drop};
ghost use Rattle.tables.specs.declared.Party.TheVariants.{AClient, ADirectory, AReplica};
ghost use Rattle.tables.specs.Layouts.{extent};
ghost use Rattle.tables.specs.Inner.{Fits};
ghost use Rattle.tables.specs.Tables.{replica_at, with_replica};
ghost use Rattle.tables.specs.Words.{words};
ghost use Rattle.tables.specs.Machines.{machine_of};
ghost use Rattle.tables.specs.Kinds.{receiver_of};
ghost use Rattle.rules.specs.Answers.{coded, answer_of};
ghost use Rattle.rules.specs.Client.{client_after, client_post};
ghost use Rattle.rules.specs.Replica.{is_full, replica_after, replica_post};
ghost use Rattle.rules.specs.Inner.{Sender};
ghost use Rattle.machine.specs.Calls.{deliver};
ghost use Rattle.machine.specs.Deliver.{filled};
ghost use Rattle.machine.specs.Effects.{client, directory, replica};
ghost use Rattle.machine.specs.Steps.{step};
ghost use Rattle.machine.specs.Buffers.{call, Gives};
ghost use Rattle.machine.specs.Told.{told};
ghost use Rattle.machine.specs.Inner.{Took, Arrived, Delivered, Committed, stocked, Turned};

use crate::refusal::Refusal;
use crate::{codes, send};
use mail::Post;
use rules::{Answer, Outcome, answers, client, directory, replica, request};
use tables::{Client, Conf, Directory, Layout, Message, Party, places, rows};

// Who receives a message of this kind. (A `TryFrom` would have an error with nothing in it.)
fn receiver_of(kind: u32) -> Option<Party>
    ensures { result ≡ receiver_of kind }
{
    match kind {
        1..=4 | 14 => Some(Party::ADirectory),
        5..=8 | 12..=13 => Some(Party::AClient),
        9..=11 | 15 => Some(Party::AReplica),
        _ => None,
    }
}

fn to_directory(lay: Layout, m: &mut [u32], s: usize, x: Message) -> Result<Answer, Refusal>
    requires { Arrived lay ADirectory m.old s x }
    ensures { Delivered lay (machine_of lay m.old) (suc s) (told result) m.old m.new }
{
    let i = (x.receiver - 1) as usize;
    let d = places::directory(lay, m, i);
    if d.down == 1 {
        send::empty_slot(lay, m, s);
        return Ok(answers::coded(4));
    }
    let k = rows::conf_at(m);
    let new = directory::after(k.f, d, x);
    let y = directory::post(d, x);
    send::ask_room(lay, m, 1, y.to)?;
    places::set_directory(lay, m, i, new);
    send::replace(lay, m, s, y);
    Ok(answers::coded(0))
}

// Whether replica i is FULL for a message.
#[tactic(auto, using(crate::proofs::Stored::entries_in))]
fn is_full(lay: Layout, m: &[u32], i: usize, x: Message) -> bool
    requires { Fits lay m.now × (i < 7) }
    ensures { result ≡ is_full (replica_at (machine_of lay m.now) (suc i)).entries x }
{
    let at = places::entries_at(lay, i);
    replica::full(&m[at..], x)
}

// What replica i sends.
#[tactic(auto, using(crate::proofs::Stored::entries_in))]
fn post_of(lay: Layout, m: &[u32], i: usize, nd: u32, x: Message) -> Post
    requires { Fits lay m.now × (i < 7) × (nd ≤ 31) × Sender x.sender }
    ensures { result ≡ replica_post nd (replica_at (machine_of lay m.now) (suc i)).entries x }
{
    let at = places::entries_at(lay, i);
    replica::post(nd, &m[at..], x)
}

// Replica i takes a message in.
fn store(lay: Layout, m: &mut [u32], i: usize, x: Message)
    requires { Fits lay m.old × (i < 7) }
    ensures { m.new ≡ words (with_replica (machine_of lay m.old) (suc i) (stocked (machine_of lay m.old) (suc i) (replica_after (replica_at (machine_of lay m.old) (suc i)).entries x))) (drop (extent lay) m.old) }
{
    let at = places::entries_at(lay, i);
    replica::take_in(&mut m[at..], x);
}

fn to_replica(lay: Layout, m: &mut [u32], s: usize, x: Message) -> Result<Answer, Refusal>
    requires { Arrived lay AReplica m.old s x }
    ensures { Delivered lay (machine_of lay m.old) (suc s) (told result) m.old m.new }
{
    let i = (x.receiver - 1) as usize;
    if places::down(lay, m, Party::AReplica, i) == 1 {
        send::empty_slot(lay, m, s);
        return Ok(answers::coded(4));
    }
    if is_full(lay, m, i, x) {
        return Err(Refusal::Full);
    }
    let k = rows::conf_at(m);
    let y = post_of(lay, m, i, k.directories, x);
    send::ask_room(lay, m, 1, y.to)?;
    store(lay, m, i, x);
    send::replace(lay, m, s, y);
    Ok(answers::coded(0))
}

// The client's turn: its row, what it sends and the answer, by the outcome.
fn turn(
    lay: Layout,
    m: &mut [u32],
    s: usize,
    x: Message,
    k: Conf,
    w: Client,
    o: Outcome,
) -> Result<Answer, Refusal>
    requires { Turned lay m.old s x k w o }
    ensures { Committed lay m.old s (client (suc (x.receiver - 1)) (client_after w x o)) (client_post k x.receiver w (client_after w x o) o) (answer_of x.receiver o) (told result) m.new }
{
    let own = x.receiver;
    let i = (own - 1) as usize;
    let new = request::after(w, x, o);
    let y = request::post(k, own, w, new, o);
    send::ask_room(lay, m, 1, y.to)?;
    places::set_client(lay, m, i, new);
    send::replace(lay, m, s, y);
    Ok(answers::answer_of(own, o))
}

// The page is written where a read ends.
#[tactic(auto, using(tables::proofs::Table::put_all))]
fn fill(page: &mut [u32], x: Message, o: Outcome)
    requires { length page.old ≡ 16 }
    ensures { page.new ≡ filled o x page.old }
{
    if let Outcome::ReadEnded(..) = o {
        rows::copy_in(page, &x.page);
    }
}

fn to_client(
    lay: Layout,
    m: &mut [u32],
    s: usize,
    x: Message,
    page: &mut [u32],
) -> Result<Answer, Refusal>
    requires arrived { Arrived lay AClient m.old s x }
    requires page_len { length page.old ≡ 16 }
    ensures { Took lay (step (deliver (suc s) page.old) (machine_of lay m.old)) (told result) page.new m.old m.new }
{
    let i = (x.receiver - 1) as usize;
    let w = places::client(lay, m, i);
    if w.down == 1 {
        send::empty_slot(lay, m, s);
        return Ok(answers::coded(4));
    }
    let k = rows::conf_at(m);
    let o = client::outcome_of(k, x.receiver, w, x);
    fill(page, x, o);
    turn(lay, m, s, x, k, w, o)
}

pub(crate) fn deliver(
    lay: Layout,
    m: &mut [u32],
    slot: u32,
    page: &mut [u32],
) -> Result<Answer, Refusal>
    requires { lay.directories ≤ 16 }
    ensures { Gives (call lay (deliver slot page.old) m.old) (told result) page.new m.new }
{
    codes::ask(lay, m, page.len())?;
    let s = codes::place(128, slot)?;
    let x = send::slot(lay, m, s);
    let Some(who) = receiver_of(x.kind) else {
        return Err(Refusal::Empty);
    };
    match who {
        Party::AClient => to_client(lay, m, s, x, page),
        Party::ADirectory => to_directory(lay, m, s, x),
        Party::AReplica => to_replica(lay, m, s, x),
    }
}
