// The mail: what a step sends, and the slots where messages wait for any machine that has them.
#![tactic(auto)]

use tables::Message;

pub mod posts; // posts.rt: messages that a step sends
pub mod slots; // slots.rt: the slots, as a part of the buffer

// One message to a set of receivers; its receiver is 0 until it is sent.
#[derive(Clone, Copy)]
pub struct Post {
    pub message: Message,
    pub to: u32,
}
