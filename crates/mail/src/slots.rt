// The 128 slots. Each function is lent the buffer from its first slot on and knows nothing else of the layout. Slots count from 0 here.
ghost use Rattle.std.specs.Prelude.{◌≡◌, suc, ◌+◌, ◌^◌, ◌≤◌, ◌<◌, leb, length, position};
ghost use Rattle.sets.specs.Sets.{size};
ghost use Rattle.tables.specs.Rows.{row, with_row, put_first};
ghost use Rattle.tables.specs.Tables.{no_message, is_empty};
ghost use Rattle.tables.specs.Machines.{slots_of};
ghost use Rattle.mail.specs.Posts.{messages_of};
ghost use Rattle.mail.specs.Slots.{placed, empty_slots};
ghost use Rattle.mail.specs.Inner.{with_mail};

use crate::Post;
use tables::{Message, blank, rows};

// The lowest empty slot. (As `free_entry` looks through entries; a function for both would promise of rows of words what these promise of slots and entries.)
pub fn lowest_empty(l: &[u32]) -> Option<usize>
    requires { 3072 ≤ length l.now }
    ensures { result ≡ position is_empty (slots_of l.now) }
{
    l[..rows::MESSAGE_ROWS]
        .chunks_exact(rows::MESSAGE_ROW)
        .position(|row| row[0] == 0)
}

// How many slots are empty.
pub fn empty_slots(l: &[u32]) -> usize
    requires { 3072 ≤ length l.now }
    ensures { result ≡ empty_slots (slots_of l.now) }
{
    // Tried as a chain that filters the rows and counts: it takes 10 instructions a slot, and this 4.
    let mut n = 0;
    for s in 0..128 {
        if l[s * rows::MESSAGE_ROW] == 0 {
            n += 1;
        }
    }
    n
}

#[tactic(auto, using(tables::proofs::Parts::rest_all, tables::proofs::Read::slot_at_lem))]
pub fn slot(l: &[u32], s: usize) -> Message
    requires { (3072 ≤ length l.now) × (s < 128) }
    ensures { result ≡ row no_message (slots_of l.now) (suc s) }
{
    rows::message_at(&l[s * rows::MESSAGE_ROW..])
}

#[tactic(auto, using(crate::proofs::Words::slot_written))]
pub fn set_slot(l: &mut [u32], s: usize, x: Message)
    requires { (3072 ≤ length l.old) × (s < 128) }
    ensures { l.new ≡ with_mail l.old (with_row (slots_of l.old) (suc s) x) }
{
    rows::put_message(&mut l[s * rows::MESSAGE_ROW..], x);
}

pub fn empty_slot(l: &mut [u32], s: usize)
    requires { (3072 ≤ length l.old) × (s < 128) }
    ensures { l.new ≡ with_mail l.old (with_row (slots_of l.old) (suc s) no_message) }
{
    set_slot(l, s, blank::no_message());
}

// Whether the empty slots, and `more` besides, are enough for a message to each in the set.
#[tactic(auto, using(crate::proofs::Words::few_empty))]
pub fn room(l: &[u32], more: usize, to: u32) -> bool
    requires { (3072 ≤ length l.now) × (more ≤ 1) }
    ensures { result ≡ leb (size to) (empty_slots (slots_of l.now) + more) }
{
    let n = sets::size_of(to) as usize;
    n <= more || n <= empty_slots(l) + more
}

// One message enters the lowest empty slot.
#[tactic(auto, using(crate::proofs::Sending::slot_inside, crate::proofs::Sending::not_entered))]
pub fn enter(l: &mut [u32], x: Message)
    requires { 3072 ≤ length l.old }
    ensures { l.new ≡ with_mail l.old (put_first is_empty x (slots_of l.old)) }
{
    if let Some(s) = lowest_empty(l) {
        set_slot(l, s, x);
    }
}

// The message to each in the set, in order of receiver: up to the highest one.
pub fn send(l: &mut [u32], y: Post)
    requires { (3072 ≤ length l.old) × (y.to < 2 ^ 16) }
    ensures { l.new ≡ with_mail l.old (placed (messages_of y) (slots_of l.old)) }
{
    for p in 1..=u32::BITS - y.to.leading_zeros() {
        if sets::is_in(y.to, p) {
            let x = Message {
                receiver: p,
                ..y.message
            };
            enter(l, x);
        }
    }
}

// Slot s is emptied, and then the messages enter.
pub fn replace(l: &mut [u32], s: usize, y: Post)
    requires { (3072 ≤ length l.old) × (s < 128) × (y.to < 2 ^ 16) }
    ensures { l.new ≡ with_mail l.old (placed (messages_of y) (with_row (slots_of l.old) (suc s) no_message)) }
{
    empty_slot(l, s);
    send(l, y);
}
