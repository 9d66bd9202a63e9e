// Every row of a table, which is lent whole: a row in use by its fields, and one not in use by its zeros.
ghost use Rattle.std.specs.Prelude.{◌≡◌, ℕ, ◌*◌, length, if◌then◌else◌};
ghost use Rattle.tables.specs.declared.Conf.{Conf};
ghost use Rattle.tables.specs.Words.{client_words, directory_words};
ghost use Rattle.tables.specs.Machines.{client_of, directory_of, message_of, clients_of, directories_of, replicas_of, slots_of};
ghost use Rattle.inspect.specs.Good.{zeros, each_row, good_client, good_directory, client_row, directory_row, replica_row, slot_row};
ghost use Rattle.inspect.specs.Inner.{Few, replica_in, kind_table, phase_table};

use crate::limits::Limits;
use crate::{entries, fields, limits, row};
use tables::{Conf, rows};

// By the limits of its phase: t is their table, of whatever numbers k.
#[tactic(auto, using(crate::proofs::Zeros::client_zeros, crate::proofs::Within::client_within_lem, crate::proofs::Within::limits_at), unfolding(crate::specs::Good::good_client, tables::specs::Machines::client_of))]
fn client(t: &[[u32; 8]; 7], used: bool, l: &[u32; rows::CLIENT_ROW]) -> bool
    ensures { (k : Conf) → t.now ≡ phase_table k
        → result ≡ (if used then good_client k (client_of l.now) else zeros (client_words (client_of l.now))) }
{
    if !used {
        return fields::zero(l);
    }
    let Some(y) = t.get(l[1] as usize) else {
        return false;
    };
    let page = fields::joined(&l[8..24]);
    Limits::from(*y).allow_client(rows::client_at(l), page)
}

pub(crate) fn clients(k: Conf, l: &[u32]) -> bool
    requires { (length l.now ≡ 192) × Few k }
    ensures { result ≡ each_row (client_row k) 1 (clients_of l.now) }
{
    let t = limits::phases(k);
    let n = k.clients as usize;
    let (rows, _) = l.as_chunks::<{ rows::CLIENT_ROW }>();
    rows.iter()
        .enumerate()
        .all(|(i, row)| client(&t, i < n, row))
}

#[tactic(auto, using(crate::proofs::Zeros::directory_zeros))]
fn directory(k: Conf, used: bool, l: &[u32; rows::DIRECTORY_ROW]) -> bool
    requires { Few k }
    ensures { result ≡ (if used then good_directory k (directory_of l.now) else zeros (directory_words (directory_of l.now))) }
{
    if used {
        row::directory(k, rows::directory_at(l))
    } else {
        fields::zero(l)
    }
}

// A table of any number of rows.
pub(crate) fn directories(k: Conf, l: &[u32]) -> bool
    requires { Few k }
    ensures { (n : ℕ) → length l.now ≡ n * 4 → result ≡ each_row (directory_row k) 1 (directories_of n l.now) }
{
    let n = k.directories as usize;
    let (rows, _) = l.as_chunks::<{ rows::DIRECTORY_ROW }>();
    rows.iter()
        .enumerate()
        .all(|(i, row)| directory(k, i < n, row))
}

// A replica by its flag and its 240 words.
#[tactic(auto, using(crate::proofs::Zeros::replica_zeros), unfolding(crate::specs::Good::good_replica, crate::specs::Inner::replica_in, crate::specs::Inner::good_entries))]
fn replica(k: Conf, used: bool, down: u32, l: &[u32; rows::ENTRY_ROWS]) -> bool
    ensures { result ≡ replica_in k used down l.now }
{
    if used {
        (down <= 1) && (entries::all(k, l) && entries::some_secured(l))
    } else {
        (down == 0) & fields::zero(l)
    }
}

// Two tables: the down flags, and the entries.
pub(crate) fn replicas(k: Conf, flags: &[u32], l: &[u32]) -> bool
    requires { (length flags.now ≡ 7) × (length l.now ≡ 1680) }
    ensures { result ≡ each_row (replica_row k) 1 (replicas_of 7 flags.now l.now) }
{
    let n = k.replicas as usize;
    let (entries, _) = l.as_chunks::<{ rows::ENTRY_ROWS }>();
    flags
        .iter()
        .zip(entries)
        .enumerate()
        .all(|(i, (down, row))| replica(k, i < n, *down, row))
}

// By the limits of its kind.
fn slot(t: &[[u32; 8]; 16], l: &[u32; rows::MESSAGE_ROW]) -> bool
    ensures { (k : Conf) → t.now ≡ kind_table k → result ≡ slot_row k 0 (message_of l.now) }
{
    let kind = l[0];
    if kind == 0 {
        return fields::zero(&l[0..4]) && fields::zero(&l[4..24]);
    }
    let Some(y) = t.get(kind as usize) else {
        return false;
    };
    let page = fields::joined(&l[8..24]);
    Limits::from(*y).allow_message(rows::message_at(l), page)
}

pub(crate) fn slots(k: Conf, l: &[u32]) -> bool
    requires { (length l.now ≡ 3072) × Few k }
    ensures { result ≡ each_row (slot_row k) 1 (slots_of l.now) }
{
    let t = limits::kinds(k);
    let (rows, _) = l.as_chunks::<{ rows::MESSAGE_ROW }>();
    rows.iter().all(|row| slot(&t, row))
}
