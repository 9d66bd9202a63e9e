// Rows and pages not in use: every word is zero.
ghost use Rattle.std.specs.Prelude.{◌≡◌};
ghost use Rattle.tables.specs.Tables.{no_page, no_entry, no_message};

use crate::{Entry, Message};
use sets::FIRST;

#[tactic(auto, unfolding(crate::specs::Tables::no_page))]
pub fn no_page() -> [u32; 16]
    ensures { result ≡ no_page }
{
    [0u32; 16]
}

#[tactic(auto, unfolding(crate::specs::Tables::no_entry))]
pub fn no_entry() -> Entry
    ensures { result ≡ no_entry }
{
    Entry {
        state: 0,
        tag: FIRST,
        spare: 0,
        page: no_page(),
    }
}

#[tactic(auto, unfolding(crate::specs::Tables::no_message))]
pub fn no_message() -> Message
    ensures { result ≡ no_message }
{
    Message {
        kind: 0,
        sender: 0,
        receiver: 0,
        tag: FIRST,
        set: 0,
        number: 0,
        spare: 0,
        page: no_page(),
    }
}
