// The rules of directory, replica and client, document 01, "Steps".
#![tactic(auto)]

use sets::Tag;

pub mod directory; // directory.rt: kinds 1 to 4 and 14
pub mod replica; // replica.rt: kinds 9 to 11 and 15, gossip
pub mod tidy; // tidy.rt
mod quorums; // quorums.rt: when an answered set of directories is enough
pub mod client; // client.rt: what a reply leads to
pub mod request; // request.rt: the client's row afterwards, and what it sends
pub mod answers; // answers.rt: codes and values

// What a reply leads to at a client.
#[derive(Clone, Copy)]
pub enum Outcome {
    Waiting,
    Next(Tag),
    ReadEnded(Tag, u32), // and the reply's mark
    WriteEnded(Tag),
    Spent,
    Stale,
}

// What a step hands back: numbers, as document 01's table of codes gives them to the host.
#[derive(Clone, Copy)]
pub struct Answer {
    pub code: u32,
    pub client: u32,
    pub tag: Tag,
    pub mark: u32, // 1 where a read got the very tag that it had asked for
}
