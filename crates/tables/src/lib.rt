// The tables of a machine, document 01, "The tables": its rows as structs, and the places where they stand in the lent buffer.
#![tactic(auto)]

use sets::Tag;

pub mod blank; // blank.rt: rows and pages not in use
pub mod rows; // rows.rt: a row read from, or written to, a part that begins at its first word
pub mod places; // places.rt: where each table stands in the whole buffer, and the rows of the parties
pub mod search; // search.rt: free entries and tags

// How a machine lies in the buffer: the directory rows that it has room for. All later words move by them.
#[derive(Clone, Copy)]
pub struct Layout {
    pub directories: usize,
}

// 4,992 words: document 01, with counts.
pub const BASE: Layout = Layout { directories: 5 };

// 5,036 words: directories in columns.
pub const WIDE: Layout = Layout { directories: 16 };

// The numbers of words 0 to 7. A machine has the counts rq and wq, or columns, and 0 for what it has not.
#[derive(Clone, Copy)]
pub struct Conf {
    pub clients: u32,
    pub directories: u32,
    pub replicas: u32,
    pub f: u32,
    pub rq: u32,
    pub wq: u32,
    pub top: u32,
    pub columns: u32,
}

// A row's fields are its words, whatever they say: a phase, a state, a kind and a down word are numbers here, since a bad machine has rows too, and each is written back as it was read (`proofs/Round`).
#[derive(Clone, Copy)]
pub struct Client {
    pub down: u32,
    pub phase: u32,
    pub number: u32,
    pub answered: u32,
    pub replicas: u32,
    pub tag: Tag,
    pub spare: u32,
    pub page: [u32; 16],
}

#[derive(Clone, Copy, PartialEq, Eq)]
pub struct Directory {
    pub down: u32,
    pub tag: Tag,
    pub set: u32,
}

#[derive(Clone, Copy)]
pub struct Entry {
    pub state: u32,
    pub tag: Tag,
    pub spare: u32,
    pub page: [u32; 16],
}

#[derive(Clone, Copy)]
pub struct Message {
    pub kind: u32,
    pub sender: u32,
    pub receiver: u32,
    pub tag: Tag,
    pub set: u32,
    pub number: u32,
    pub spare: u32,
    pub page: [u32; 16],
}

// The kinds of parties. Where a number need not name one, it is an option: a slot with no message has neither sender nor receiver.
#[derive(Clone, Copy)]
pub enum Party {
    AClient,
    ADirectory,
    AReplica,
}
