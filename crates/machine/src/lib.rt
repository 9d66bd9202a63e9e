// The machine: eight calls on a lent buffer, document 01, "Steps" and "What a call hands back", in either layout.
#![tactic(auto)]

ghost use Rattle.std.specs.Prelude.{◌≡◌, []};
ghost use Rattle.machine.specs.Calls.{set_up, start_read, start_write, deliver, gossip, tidy, crash};
ghost use Rattle.machine.specs.Buffers.{call, Gives, reported};

pub use layouts::{Base, LaidOut, Wide};
use refusal::told;
use rules::Answer;
use tables::Conf;

// The layout and the buffer stay two parameters below: one struct of both would lend a buffer that is only read as one to write to.
mod layouts; // layouts.rt: the two layouts
mod refusal; // refusal.rt: codes 16 to 24
mod send; // send.rt: the slots, lent to `mail`
mod codes; // codes.rt: what is asked first
mod setting; // setting.rt: set-up
mod starting; // starting.rt: start read, start write
mod receiving; // receiving.rt: deliver
mod others; // others.rt: gossip, tidy, crash
mod counting; // counting.rt: report

// Report's answer, in numbers, as document 01's table gives them to the host; both are zero where it is refused.
#[derive(Clone, Copy)]
pub struct Counts {
    pub code: u32,
    pub waiting: u32,
    pub down: u32,
}

// Set-up, with the numbers and the first page: counts have 0 for columns, columns have 0 for rq and wq.
pub fn set_up<L: LaidOut>(m: &mut [u32], k: Conf, page: &[u32]) -> Answer
    ensures { Gives (call L.LAYOUT (set_up k page.now) m.old) result [] m.new }
{
    told(setting::set_up(L::LAYOUT, m, k, page))
}

pub fn start_read<L: LaidOut>(m: &mut [u32], client: u32) -> Answer
    ensures { Gives (call L.LAYOUT (start_read client) m.old) result [] m.new }
{
    told(starting::read(L::LAYOUT, m, client))
}

pub fn start_write<L: LaidOut>(m: &mut [u32], client: u32, page: &[u32]) -> Answer
    ensures { Gives (call L.LAYOUT (start_write client page.now) m.old) result [] m.new }
{
    told(starting::write(L::LAYOUT, m, client, page))
}

// Deliver fills the page where a read ends, and leaves it as it is otherwise.
pub fn deliver<L: LaidOut>(m: &mut [u32], slot: u32, page: &mut [u32]) -> Answer
    ensures { Gives (call L.LAYOUT (deliver slot page.old) m.old) result page.new m.new }
{
    told(receiving::deliver(L::LAYOUT, m, slot, page))
}

pub fn gossip<L: LaidOut>(m: &mut [u32], from: u32, to: u32) -> Answer
    ensures { Gives (call L.LAYOUT (gossip from to) m.old) result [] m.new }
{
    told(others::gossip(L::LAYOUT, m, from, to))
}

pub fn tidy<L: LaidOut>(m: &mut [u32], replica: u32) -> Answer
    ensures { Gives (call L.LAYOUT (tidy replica) m.old) result [] m.new }
{
    told(others::tidy(L::LAYOUT, m, replica))
}

// Crash of a party: 1 client, 2 directory, 3 replica.
pub fn crash<L: LaidOut>(m: &mut [u32], kind: u32, id: u32) -> Answer
    ensures { Gives (call L.LAYOUT (crash kind id) m.old) result [] m.new }
{
    told(others::crash(L::LAYOUT, m, kind, id))
}

// Waiting messages and parties down.
pub fn report<L: LaidOut>(m: &[u32]) -> Counts
    ensures { result ≡ reported L.LAYOUT m.now }
{
    counting::report(L::LAYOUT, m).unwrap_or_else(|why| Counts {
        code: why.number(),
        waiting: 0,
        down: 0,
    })
}
