// Two good machines, laid out so that each way of being bad is one word away.
ghost use Rattle.std.specs.Prelude.{◌≤◌, ◌<◌};

use mail::slots;
use sets::{FIRST, Tag};
use tables::{BASE, Client, Directory, Entry, Message, places, rows};

// A buffer that is just as long as a machine.
pub type Words = [u32; 4992];

fn tag(number: u32, client: u32) -> Tag {
    Tag { number, client }
}

// Entry e of replica i: a state, a tag, a page of sevens.
fn put_entry(m: &mut Words, i: usize, e: usize, state: u32, t: Tag)
    requires { (i < 7) × (e < 12) }
{
    let x = Entry {
        state,
        tag: t,
        spare: 0,
        page: [7u32; 16],
    };
    places::set_entry(BASE, m, i, e, x);
}

// A secured first page at the first n replicas.
fn first_pages(m: &mut Words, n: usize)
    requires { n ≤ 7 }
{
    for i in 0..n {
        put_entry(m, i, 0, 2, FIRST);
    }
}

// The first n directories have the tag and the set.
fn same_directories(m: &mut Words, n: usize, t: Tag, set: u32)
    requires { n ≤ 5 }
{
    for i in 0..n {
        let d = Directory {
            down: 0,
            tag: t,
            set,
        };
        places::set_directory(BASE, m, i, d);
    }
}

// After set-up with 8 clients, 5 directories, 7 replicas, f 3, rq and wq 3, top 20.
pub fn after_set_up(m: &mut Words) {
    m.fill(0);
    let numbers = [8u32, 5, 7, 3, 3, 3, 20];
    rows::copy_in(m, &numbers);
    same_directories(m, 5, FIRST, 127);
    first_pages(m, 7);
}

// A client that is idle: its message number is as high as the rounds to come allow under top 20.
const IDLE: Client = Client {
    down: 0,
    phase: 0,
    number: 20,
    answered: 0,
    replicas: 0,
    tag: FIRST,
    spare: 0,
    page: [0u32; 16],
};

fn put_client(m: &mut Words, i: usize, w: Client)
    requires { i < 8 }
{
    places::set_client(BASE, m, i, w);
}

// A client in a phase of a read, with replicas 1 to 3.
fn reader(phase: u32, number: u32, answered: u32) -> Client {
    Client {
        phase,
        number,
        answered,
        replicas: 7,
        tag: tag(2, 1),
        ..IDLE
    }
}

// Clients 1 to 4: idle and the phases of a read.
fn readers(m: &mut Words) {
    put_client(m, 0, IDLE);
    put_client(m, 1, reader(1, 18, 1));
    put_client(m, 2, reader(2, 19, 2));
    put_client(m, 3, reader(3, 20, 0));
}

// A client in a phase of a write.
fn writer(phase: u32, number: u32, answered: u32, t: Tag) -> Client {
    Client {
        phase,
        number,
        answered,
        tag: t,
        page: [9u32; 16],
        ..IDLE
    }
}

// Clients 5 to 7: the phases of a write.
fn writers(m: &mut Words) {
    put_client(m, 4, writer(4, 18, 1, tag(2, 1)));
    put_client(m, 5, writer(5, 19, 16, tag(3, 6)));
    let last = writer(6, 20, 4, tag(4, 7));
    put_client(
        m,
        6,
        Client {
            replicas: 7,
            ..last
        },
    );
}

// Slot i: a message of kind i + 1.
fn put_message(m: &mut Words, i: usize, x: Message)
    requires { i < 15 }
{
    let at = places::slots_at(BASE);
    let kind = i as u32 + 1;
    slots::set_slot(&mut m[at..], i, Message { kind, ..x });
}

// A message that carries its number, 20, alone.
fn bare(sender: u32, receiver: u32) -> Message {
    Message {
        kind: 0,
        sender,
        receiver,
        tag: FIRST,
        set: 0,
        number: 20,
        spare: 0,
        page: [0u32; 16],
    }
}

// One that carries tag (2,1) too.
fn tagged(sender: u32, receiver: u32) -> Message {
    Message {
        tag: tag(2, 1),
        ..bare(sender, receiver)
    }
}

// Kinds 1 to 4: client 7 to directory 3.
fn asked_directories(m: &mut Words) {
    let asks = bare(7, 3);
    let tells = Message {
        set: 7,
        ..tagged(7, 3)
    };
    put_message(m, 0, asks);
    put_message(m, 1, tells);
    put_message(m, 2, asks);
    put_message(m, 3, tells);
}

// Kinds 5 to 8: directory 3 to client 7.
fn directories_answer(m: &mut Words) {
    let tells = Message {
        set: 7,
        ..tagged(3, 7)
    };
    put_message(m, 4, tells);
    put_message(m, 5, bare(3, 7));
    put_message(m, 6, tagged(3, 7));
    put_message(m, 7, bare(3, 7));
}

// Kinds 9 to 11: client 7 to replica 5.
fn asked_replicas(m: &mut Words) {
    let writes = Message {
        page: [9u32; 16],
        ..tagged(7, 5)
    };
    put_message(m, 8, tagged(7, 5));
    put_message(m, 9, writes);
    put_message(m, 10, tagged(7, 5));
}

// Kinds 12 to 15: replica 5 to client 7, directory 3 and replica 4.
fn replicas_send(m: &mut Words) {
    let read_ok = Message {
        page: [9u32; 16],
        ..tagged(5, 7)
    };
    let notice = Message {
        number: 0,
        ..tagged(5, 3)
    };
    let gossip = Message {
        receiver: 4,
        number: 0,
        ..read_ok
    };
    put_message(m, 11, read_ok);
    put_message(m, 12, bare(5, 7));
    put_message(m, 13, notice);
    put_message(m, 14, gossip);
}

// A client in every phase, a message of every kind, held and secured entries: 7 clients, 3 directories, 5 replicas, f 2, rq and wq 2, top 20.
pub fn every_row(m: &mut Words) {
    m.fill(0);
    let numbers = [7u32, 3, 5, 2, 2, 2, 20];
    rows::copy_in(m, &numbers);
    readers(m);
    writers(m);
    same_directories(m, 3, tag(2, 1), 31);
    entries(m);
    messages(m);
}

// Replica 1 has (0,0) secured and (2,1), (2,2), (3,2) held.
fn entries(m: &mut Words) {
    first_pages(m, 5);
    put_entry(m, 0, 1, 1, tag(2, 1));
    put_entry(m, 0, 2, 1, tag(2, 2));
    put_entry(m, 0, 11, 1, tag(3, 2));
}

fn messages(m: &mut Words) {
    asked_directories(m);
    directories_answer(m);
    asked_replicas(m);
    replicas_send(m);
}
