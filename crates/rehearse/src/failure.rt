// What ends the program before the end of its input.
use std::io::ErrorKind;
use std::{fmt, io};

#[derive(Clone, Copy)]
pub enum Failure {
    Reading(io::Error),
    Writing(io::Error),
}

impl Failure {
    // Whether it is only that nobody reads the answers any more.
    pub fn is_quiet(&self) -> bool {
        matches!(self, Failure::Writing(e) if e.kind() == ErrorKind::BrokenPipe)
    }
}

impl fmt::Display for Failure {
    fn fmt<W: fmt::Write>(&self, f: &mut fmt::Formatter<W>) -> fmt::Result {
        match self {
            Failure::Reading(e) => write!(f, "the input could not be read: {e}"),
            Failure::Writing(e) => write!(f, "the output could not be written: {e}"),
        }
    }
}
