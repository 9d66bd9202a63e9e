// Why a call is not taken: codes 16 to 24 of document 01, "What a call hands back". Those of a step that is taken, 0 to 5, stay numbers in `Answer`: it is what the host is handed.
ghost use Rattle.std.specs.Prelude.{◌≡◌};
ghost use Rattle.machine.specs.Told.{number_of, told};

use rules::{Answer, answers};

#[derive(Clone, Copy, Debug, PartialEq, Eq)]
pub(crate) enum Refusal {
    Size = 16,
    BadMachine,
    BadArgument,
    Down,
    Busy,
    Worn,
    Empty,
    Full,
    NoSlot,
}

impl Refusal {
    // Its number in the table of codes.
    pub(crate) fn number(self) -> u32
        ensures { result ≡ number_of self }
    {
        self as u32
    }
}

// What a call hands back: its answer, or the number of its refusal alone.
pub(crate) fn told(r: Result<Answer, Refusal>) -> Answer
    ensures { result ≡ told r }
{
    r.unwrap_or_else(|why| answers::coded(why.number()))
}
