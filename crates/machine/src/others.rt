// Gossip, tidy and crash.
ghost use Rattle.std.specs.Prelude.{◌≡◌, [], suc, ◌≤◌, ◌<◌, drop};
ghost use Rattle.tables.specs.Layouts.{extent};
ghost use Rattle.tables.specs.Inner.{Fits};
ghost use Rattle.tables.specs.Tables.{replica_at};
ghost use Rattle.tables.specs.Words.{words};
ghost use Rattle.tables.specs.Machines.{machine_of};
ghost use Rattle.tables.specs.Kinds.{many_of};
ghost use Rattle.rules.specs.Replica.{gossip_post};
ghost use Rattle.machine.specs.Calls.{gossip, tidy, crash, party_of};
ghost use Rattle.machine.specs.Buffers.{call, Gives};
ghost use Rattle.machine.specs.Told.{told};
ghost use Rattle.machine.specs.Inner.{Gossips, with_tidied};

use crate::refusal::Refusal;
use crate::{codes, send};
use mail::Post;
use rules::{Answer, answers};
use tables::{Conf, Layout, Party, places, rows};

// The kind of party that a number names. (A `TryFrom` would have an error with nothing in it.)
fn party_of(kind: u32) -> Option<Party>
    ensures { result ≡ party_of kind }
{
    match kind {
        1 => Some(Party::AClient),
        2 => Some(Party::ADirectory),
        3 => Some(Party::AReplica),
        _ => None,
    }
}

// How many parties of a kind there are.
fn many_of(k: Conf, who: Party) -> u32
    ensures { result ≡ many_of k who }
{
    match who {
        Party::AClient => k.clients,
        Party::ADirectory => k.directories,
        Party::AReplica => k.replicas,
    }
}

// Crash of a party: 1 client, 2 directory, 3 replica.
pub(crate) fn crash(lay: Layout, m: &mut [u32], kind: u32, id: u32) -> Result<Answer, Refusal>
    requires { lay.directories ≤ 16 }
    ensures { Gives (call lay (crash kind id) m.old) (told result) [] m.new }
{
    codes::ask(lay, m, 16)?;
    let k = rows::conf_at(m);
    let Some(who) = party_of(kind) else {
        return Err(Refusal::BadArgument);
    };
    let i = codes::place(many_of(k, who), id)?;
    if places::down(lay, m, who, i) == 1 {
        return Err(Refusal::Down);
    }
    places::set_down(lay, m, who, i, 1);
    Ok(answers::coded(0))
}

// Tidy at replica i, counted from 0.
fn tidy_replica(lay: Layout, m: &mut [u32], i: usize)
    requires { Fits lay m.old × (i < 7) }
    ensures { m.new ≡ words (with_tidied (machine_of lay m.old) (suc i)) (drop (extent lay) m.old) }
{
    let at = places::entries_at(lay, i);
    rules::tidy::tidy_in(&mut m[at..]);
}

pub(crate) fn tidy(lay: Layout, m: &mut [u32], r: u32) -> Result<Answer, Refusal>
    requires { lay.directories ≤ 16 }
    ensures { Gives (call lay (tidy r) m.old) (told result) [] m.new }
{
    codes::ask(lay, m, 16)?;
    let k = rows::conf_at(m);
    let i = codes::place(k.replicas, r)?;
    if places::down(lay, m, Party::AReplica, i) == 1 {
        return Err(Refusal::Down);
    }
    tidy_replica(lay, m, i);
    Ok(answers::coded(0))
}

// What replica i, counted from 0, sends by gossip.
#[tactic(auto, using(crate::proofs::Stored::entries_in))]
fn gossip_post(lay: Layout, m: &[u32], i: usize, from: u32, to: u32) -> Post
    requires { Gossips lay m.now i to }
    ensures { result ≡ gossip_post (replica_at (machine_of lay m.now) (suc i)).entries from to }
{
    let at = places::entries_at(lay, i);
    rules::replica::gossip(&m[at..], from, to)
}

pub(crate) fn gossip(lay: Layout, m: &mut [u32], from: u32, to: u32) -> Result<Answer, Refusal>
    requires { lay.directories ≤ 16 }
    ensures { Gives (call lay (gossip from to) m.old) (told result) [] m.new }
{
    codes::ask(lay, m, 16)?;
    let k = rows::conf_at(m);
    let sender = codes::place(k.replicas, from)?;
    let receiver = codes::place(k.replicas, to)?;
    if sender == receiver {
        return Err(Refusal::BadArgument);
    }
    if places::down(lay, m, Party::AReplica, sender) == 1 {
        return Err(Refusal::Down);
    }
    let p = gossip_post(lay, m, sender, from, to);
    send::ask_room(lay, m, 0, p.to)?;
    send::send(lay, m, p);
    Ok(answers::coded(0))
}
