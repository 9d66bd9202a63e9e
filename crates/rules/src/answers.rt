// What a step hands back: the code and values of each outcome, and a code alone for all else.
ghost use Rattle.std.specs.Prelude.{◌≡◌};
ghost use Rattle.rules.specs.Answers.{answer, coded, answer_of};

use crate::{Answer, Outcome};
use sets::{FIRST, Tag};

fn answer(code: u32, client: u32, tag: Tag, mark: u32) -> Answer
    ensures { result ≡ answer code client tag mark }
{
    Answer {
        code,
        client,
        tag,
        mark,
    }
}

// A code alone.
pub fn coded(code: u32) -> Answer
    ensures { result ≡ coded code }
{
    answer(code, 0, FIRST, 0)
}

// The code and values of an outcome at client `own`.
pub fn answer_of(own: u32, o: Outcome) -> Answer
    ensures { result ≡ answer_of own o }
{
    match o {
        Outcome::Waiting | Outcome::Next(_) => coded(0),
        Outcome::ReadEnded(t, mark) => answer(1, own, t, mark),
        Outcome::WriteEnded(t) => answer(2, own, t, 0),
        Outcome::Spent => answer(3, own, FIRST, 0),
        Outcome::Stale => coded(5),
    }
}
