// What is asked first: SIZE, BAD MACHINE, and whether a number is in range. From here on a layout is a value, asked to have at most 16 directory rows: a type in its place would stand at each call all the same, and have all code made twice.
ghost use Rattle.std.specs.Prelude.{◌≤◌};
ghost use Rattle.machine.specs.Inner.{Sized, Asked, Placed};

use crate::refusal::Refusal;
use inspect::fields;
use tables::{Layout, places};

// Asks whether a buffer is long enough, and the call's page, of n words, a page; a call that has none asks as one whose page is whole, with 16.
#[tactic(auto, unfolding(crate::specs::Inner::size_code))]
pub(crate) fn ask_size(lay: Layout, m: &[u32], n: usize) -> Result<(), Refusal>
    requires { lay.directories ≤ 16 }
    ensures { Sized lay m.now n result }
{
    if (m.len() < places::extent(lay)) | (n != 16) {
        return Err(Refusal::Size);
    }
    Ok(())
}

// Asks whether a step but set-up can be taken.
#[tactic(auto, using(crate::proofs::Refused::size_first, crate::proofs::Refused::then_bad))]
pub(crate) fn ask(lay: Layout, m: &[u32], n: usize) -> Result<(), Refusal>
    requires { lay.directories ≤ 16 }
    ensures { Asked lay m.now n result }
{
    ask_size(lay, m, n)?;
    if !inspect::is_good(lay, m) {
        return Err(Refusal::BadMachine);
    }
    Ok(())
}

// The place, counted from 0, of number `id` of n, which count from 1; BAD ARGUMENT where it is out of range.
pub(crate) fn place(n: u32, id: u32) -> Result<usize, Refusal>
    ensures { Placed n id result }
{
    if !fields::is_between(1, n, id) {
        return Err(Refusal::BadArgument);
    }
    Ok((id - 1) as usize)
}
