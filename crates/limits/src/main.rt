// The calls at the borders of document 01, "Also run", and a report: each line is a case and the code that the call answers, or a number of the report.
#![tactic(auto)]

mod say; // say.rt: lines of output
mod set_up; // set_up.rt: the numbers, buffers, pages
mod wear; // wear.rt: WORN
mod fill; // fill.rt: the 13th tag
mod tell; // tell.rt: report
mod wide; // wide.rt: directories in columns

use std::io;

// A buffer with room for either machine, and some words behind it.
type Words = [u32; 5040];

fn main(rt: HostRuntime) -> io::Result<()> {
    let mut m: Words = [0; 5040];
    set_up::numbers(&rt, &mut m)?;
    set_up::buffers(&rt, &mut m)?;
    set_up::pages(&rt, &mut m)?;
    wear::run(&rt, &mut m)?;
    fill::run(&rt, &mut m)?;
    tell::run(&rt, &mut m)?;
    wide::run(&rt, &mut m)
}
