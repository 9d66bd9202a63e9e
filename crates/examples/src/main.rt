// Document 01's bench examples and the borders of its ranges, run. A line is the number or a name, the case, and the outcome as the library
// computes it.
#![tactic(auto)]

mod show; // show.rt: tags, sets and entries as text
mod tags; // tags.rt: examples 1 and 2
mod directories; // directories.rt: examples 3 to 7
mod replicas; // replicas.rt: examples 8 to 11, FULL
mod clients; // clients.rt: example 12
mod ranges; // ranges.rt: the numbers

use std::io;

fn main(rt: HostRuntime) -> io::Result<()> {
    tags::run(&rt)?;
    directories::run(&rt)?;
    replicas::run(&rt)?;
    clients::run(&rt)?;
    ranges::run(&rt)?;
    replicas::run_full(&rt)
}
