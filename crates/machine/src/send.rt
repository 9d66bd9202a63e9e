// The machine's slots, lent to `mail`. Slots count from 0 here.
ghost use Rattle.std.specs.Prelude.{◌≡◌, suc, ◌^◌, ◌≤◌, ◌<◌, drop, set};
ghost use Rattle.tables.specs.Layouts.{extent};
ghost use Rattle.tables.specs.Inner.{Fits};
ghost use Rattle.tables.specs.Tables.{slot_at, with_slots, with_slot, no_message};
ghost use Rattle.tables.specs.Words.{words};
ghost use Rattle.tables.specs.Machines.{machine_of};
ghost use Rattle.mail.specs.Posts.{messages_of};
ghost use Rattle.mail.specs.Slots.{placed, empty_slots};
ghost use Rattle.machine.specs.Told.{checked};
ghost use Rattle.machine.specs.Inner.{room_code};

use crate::refusal::Refusal;
use mail::{Post, slots};
use tables::{Layout, Message, places};

#[tactic(auto, using(crate::proofs::Mailed::read))]
pub(crate) fn slot(lay: Layout, m: &[u32], s: usize) -> Message
    requires { Fits lay m.now × (s < 128) }
    ensures { result ≡ slot_at (machine_of lay m.now) (suc s) }
{
    let at = places::slots_at(lay);
    slots::slot(&m[at..], s)
}

// How many slots are empty.
#[tactic(auto, using(crate::proofs::Mailed::counted))]
pub(crate) fn empty_slots(lay: Layout, m: &[u32]) -> usize
    requires { Fits lay m.now }
    ensures { result ≡ empty_slots (machine_of lay m.now).slots }
{
    let at = places::slots_at(lay);
    slots::empty_slots(&m[at..])
}

// Asks whether the empty slots, and `more` besides, are enough for a message to each in the set.
#[tactic(auto, using(crate::proofs::Mailed::lent), unfolding(crate::specs::Inner::room_code))]
pub(crate) fn ask_room(lay: Layout, m: &[u32], more: usize, to: u32) -> Result<(), Refusal>
    requires { Fits lay m.now × (more ≤ 1) }
    ensures { checked result ≡ room_code (machine_of lay m.now) more to }
{
    let at = places::slots_at(lay);
    if !slots::room(&m[at..], more, to) {
        return Err(Refusal::NoSlot);
    }
    Ok(())
}

// The message to each in the set, in order of receiver.
#[tactic(auto, using(crate::proofs::Mailed::sent))]
pub(crate) fn send(lay: Layout, m: &mut [u32], y: Post)
    requires { Fits lay m.old × (y.to < 2 ^ 16) }
    ensures { m.new ≡ words (with_slots (machine_of lay m.old) (placed (messages_of y) (machine_of lay m.old).slots)) (drop (extent lay) m.old) }
{
    let at = places::slots_at(lay);
    slots::send(&mut m[at..], y);
}

#[tactic(auto, using(crate::proofs::Mailed::emptied))]
pub(crate) fn empty_slot(lay: Layout, m: &mut [u32], s: usize)
    requires { Fits lay m.old × (s < 128) }
    ensures { m.new ≡ words (with_slot (machine_of lay m.old) (suc s) no_message) (drop (extent lay) m.old) }
{
    let at = places::slots_at(lay);
    slots::empty_slot(&mut m[at..], s);
}

// Slot s is emptied, and then the messages enter.
#[tactic(auto, using(crate::proofs::Mailed::replaced))]
pub(crate) fn replace(lay: Layout, m: &mut [u32], s: usize, y: Post)
    requires { Fits lay m.old × (s < 128) × (y.to < 2 ^ 16) }
    ensures { m.new ≡ words (with_slots (machine_of lay m.old) (placed (messages_of y) (set (machine_of lay m.old).slots s no_message))) (drop (extent lay) m.old) }
{
    let at = places::slots_at(lay);
    slots::replace(&mut m[at..], s, y);
}
