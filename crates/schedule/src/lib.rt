// The lines of a schedule, document 01, "The rehearsal program", and document 02, [13]: bytes into commands, answers into bytes.
#![tactic(auto)]

pub mod reading; // reading.rt: the command that a line is
pub mod input; // input.rt: an input that comes in chunks, cut into lines
pub mod printing; // printing.rt: the line that answers a command

// What a line says: the numbers of its fields, in their order.
#[derive(Clone, Copy)]
pub enum Command {
    SetUp(u32, u32, u32, u32, u32, u32, u32, u32),
    Columns(u32, u32, u32, u32, u32, u32, u32),
    Read(u32),
    Write(u32, u32),
    Deliver(u32),
    Gossip(u32, u32),
    Tidy(u32),
    Crash(u32, u32),
    Malformed,
}

// The pending line: its first bytes, up to 80, and how many it has.
#[derive(Clone, Copy)]
pub struct Line {
    pub bytes: [u8; 80],
    pub len: usize,
}
