// Tags, sets and entries as text.
use sets::Tag;
use std::fmt;
use tables::rows;

// A tag, as (number,client).
#[derive(Clone, Copy)]
pub struct Pair(pub Tag);

impl fmt::Display for Pair {
    fn fmt<W: fmt::Write>(&self, f: &mut fmt::Formatter<W>) -> fmt::Result {
        let t = self.0;
        write!(f, "({},{})", t.number, t.client)
    }
}

// A set of parties, as {1,3}.
#[derive(Clone, Copy)]
pub struct Parties(pub u32);

impl fmt::Display for Parties {
    fn fmt<W: fmt::Write>(&self, f: &mut fmt::Formatter<W>) -> fmt::Result {
        f.write_str("{")?;
        let mut more = false;
        for p in 1..=32 {
            if sets::is_in(self.0, p) {
                let comma = if more { "," } else { "" };
                write!(f, "{comma}{p}")?;
                more = true;
            }
        }
        f.write_str("}")
    }
}

// The entries of a replica that are not free, in order.
#[derive(Clone, Copy)]
pub struct Entries<'a>(pub &'a [u32]);

impl<'a> fmt::Display for Entries<'a> {
    fn fmt<W: fmt::Write>(&self, f: &mut fmt::Formatter<W>) -> fmt::Result {
        let mut more = false;
        for row in self.0.chunks_exact(rows::ENTRY_ROW) {
            let e = rows::entry_at(row);
            if e.state == 0 {
                continue;
            }
            let comma = if more { ", " } else { "" };
            let state = if e.state == 1 { "held" } else { "secured" };
            write!(f, "{comma}{state} {}", Pair(e.tag))?;
            more = true;
        }
        Ok(())
    }
}
