// Rows as parts of the buffer: each reader and writer is lent a part that begins at the row's first word ("as a part of the buffer, from its own first word on"), and no array of just its words, as a `From` would ask. Each lays out the fields of its own row; a trait over rows would hold the same bodies.
ghost use Rattle.std.specs.Prelude.{◌≡◌, ◌≤◌, length, take};
ghost use Rattle.tables.specs.Inner.{put};
ghost use Rattle.tables.specs.Words.{client_words, directory_words, entry_words, message_words};
ghost use Rattle.tables.specs.Machines.{conf_of, client_of, directory_of, entry_of, message_of};

use crate::{Client, Conf, Directory, Entry, Message};
use sets::Tag;

// How many words a row has, and the entries of a replica and the slots together.
pub const CLIENT_ROW: usize = 24;

pub const DIRECTORY_ROW: usize = 4;

pub const ENTRY_ROW: usize = 20;

pub const ENTRY_ROWS: usize = 240;

pub const MESSAGE_ROW: usize = 24;

pub const MESSAGE_ROWS: usize = 3072;

// Writes r over the first words of s.
#[tactic(auto, unfolding(crate::specs::Inner::put))]
pub fn copy_in(s: &mut [u32], r: &[u32])
    requires { length r.now ≤ length s.old }
    ensures { s.new ≡ put s.old 0 r.now }
{
    s[..r.len()].copy_from_slice(r);
}

// The page that s begins with.
pub fn page_at(s: &[u32]) -> [u32; 16]
    requires { 16 ≤ length s.now }
    ensures { result ≡ take 16 s.now }
{
    *s.first_chunk().unwrap()
}

#[tactic(auto, unfolding(crate::specs::Machines::conf_of))]
pub fn conf_at(m: &[u32]) -> Conf
    requires { 8 ≤ length m.now }
    ensures { result ≡ conf_of m.now }
{
    Conf {
        clients: m[0],
        directories: m[1],
        replicas: m[2],
        f: m[3],
        rq: m[4],
        wq: m[5],
        top: m[6],
        columns: m[7],
    }
}

#[tactic(auto, unfolding(crate::specs::Machines::client_of))]
pub fn client_at(row: &[u32]) -> Client
    requires { 24 ≤ length row.now }
    ensures { result ≡ client_of row.now }
{
    Client {
        down: row[0],
        phase: row[1],
        number: row[2],
        answered: row[3],
        replicas: row[4],
        tag: Tag {
            number: row[5],
            client: row[6],
        },
        spare: row[7],
        page: page_at(&row[8..]),
    }
}

pub fn put_client(row: &mut [u32], x: Client)
    requires { 24 ≤ length row.old }
    ensures { row.new ≡ put row.old 0 (client_words x) }
{
    let head = [
        x.down,
        x.phase,
        x.number,
        x.answered,
        x.replicas,
        x.tag.number,
        x.tag.client,
        x.spare,
    ];
    copy_in(row, &head);
    copy_in(&mut row[8..], &x.page);
}

#[tactic(auto, unfolding(crate::specs::Machines::directory_of))]
pub fn directory_at(row: &[u32]) -> Directory
    requires { 4 ≤ length row.now }
    ensures { result ≡ directory_of row.now }
{
    Directory {
        down: row[0],
        tag: Tag {
            number: row[1],
            client: row[2],
        },
        set: row[3],
    }
}

#[tactic(auto, unfolding(crate::specs::Words::directory_words))]
pub fn put_directory(row: &mut [u32], x: Directory)
    requires { 4 ≤ length row.old }
    ensures { row.new ≡ put row.old 0 (directory_words x) }
{
    copy_in(row, &[x.down, x.tag.number, x.tag.client, x.set]);
}

#[tactic(auto, unfolding(crate::specs::Machines::entry_of))]
pub fn entry_at(row: &[u32]) -> Entry
    requires { 20 ≤ length row.now }
    ensures { result ≡ entry_of row.now }
{
    Entry {
        state: row[0],
        tag: Tag {
            number: row[1],
            client: row[2],
        },
        spare: row[3],
        page: page_at(&row[4..]),
    }
}

pub fn put_entry(row: &mut [u32], x: Entry)
    requires { 20 ≤ length row.old }
    ensures { row.new ≡ put row.old 0 (entry_words x) }
{
    let head = [x.state, x.tag.number, x.tag.client, x.spare];
    copy_in(row, &head);
    copy_in(&mut row[4..], &x.page);
}

#[tactic(auto, unfolding(crate::specs::Machines::message_of))]
pub fn message_at(row: &[u32]) -> Message
    requires { 24 ≤ length row.now }
    ensures { result ≡ message_of row.now }
{
    Message {
        kind: row[0],
        sender: row[1],
        receiver: row[2],
        tag: Tag {
            number: row[3],
            client: row[4],
        },
        set: row[5],
        number: row[6],
        spare: row[7],
        page: page_at(&row[8..]),
    }
}

pub fn put_message(row: &mut [u32], x: Message)
    requires { 24 ≤ length row.old }
    ensures { row.new ≡ put row.old 0 (message_words x) }
{
    let head = [
        x.kind,
        x.sender,
        x.receiver,
        x.tag.number,
        x.tag.client,
        x.set,
        x.number,
        x.spare,
    ];
    copy_in(row, &head);
    copy_in(&mut row[8..], &x.page);
}
