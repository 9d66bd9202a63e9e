// Where the tables stand in the whole buffer, and the rows of clients, directories and replicas at their places. Parties and entries count from 0 here, and from 1 in the machine. The layout and the buffer stay two: a struct that holds a lent buffer has to promise with each change that the loan is the same, and a second one is needed to read (docs/DECISIONS.md). A place is a plain index, and its bound is asked. Clients and directories have start, width, row and definition of their own: a trait of rows would need all four for bodies of two lines. That a layout has at most 16 directory rows is asked, and no part of its type: the theorems of `runs` and `history` speak of any.
ghost use Rattle.std.specs.Prelude.{◌≡◌, suc, ◌+◌, ◌*◌, ◌≤◌, ◌<◌, drop};
ghost use Rattle.tables.specs.Tables.{client_at, directory_at, down_word, with_client, with_directory};
ghost use Rattle.tables.specs.Layouts.{flags_at, gap_at, entries_at, slots_at, extent};
ghost use Rattle.tables.specs.Inner.{Fits, most_of, down_at, with_down, with_entry};
ghost use Rattle.tables.specs.Words.{words};
ghost use Rattle.tables.specs.Machines.{machine_of};

use crate::{Client, Directory, Entry, Layout, Party, rows};

// Where the spare words, the clients and the directories begin.
pub const SPARE: usize = 8;

pub const CLIENTS: usize = 16;

pub const DIRECTORIES: usize = 208;

// How many words a machine has.
pub fn extent(lay: Layout) -> usize
    requires { lay.directories ≤ 16 }
    ensures { result ≡ extent lay }
{
    4972 + lay.directories * 4
}

// Where the down flags of the replicas begin.
pub fn flags_at(lay: Layout) -> usize
    requires { lay.directories ≤ 16 }
    ensures { result ≡ flags_at lay }
{
    208 + lay.directories * 4
}

// Where the spare words after the flags begin.
pub fn gap_at(lay: Layout) -> usize
    requires { lay.directories ≤ 16 }
    ensures { result ≡ gap_at lay }
{
    215 + lay.directories * 4
}

// Where the entries of replica i begin.
pub fn entries_at(lay: Layout, i: usize) -> usize
    requires { (lay.directories ≤ 16) × (i < 7) }
    ensures { result ≡ entries_at lay + i * 240 }
{
    220 + lay.directories * 4 + i * 240
}

// Where the slots begin.
pub fn slots_at(lay: Layout) -> usize
    requires { lay.directories ≤ 16 }
    ensures { result ≡ slots_at lay }
{
    1900 + lay.directories * 4
}

#[tactic(auto, using(crate::proofs::Read::client_read))]
pub fn client(lay: Layout, m: &[u32], i: usize) -> Client
    requires { Fits lay m.now × (i < 8) }
    ensures { result ≡ client_at (machine_of lay m.now) (suc i) }
{
    let at = CLIENTS + i * rows::CLIENT_ROW;
    rows::client_at(&m[at..])
}

#[tactic(auto, using(crate::proofs::Holds::client_written))]
pub fn set_client(lay: Layout, m: &mut [u32], i: usize, x: Client)
    requires { Fits lay m.old × (i < 8) }
    ensures { m.new ≡ words (with_client (machine_of lay m.old) (suc i) x) (drop (extent lay) m.old) }
{
    let at = CLIENTS + i * rows::CLIENT_ROW;
    rows::put_client(&mut m[at..], x);
}

#[tactic(auto, using(crate::proofs::Read::directory_read))]
pub fn directory(lay: Layout, m: &[u32], i: usize) -> Directory
    requires { Fits lay m.now × (i < lay.directories) }
    ensures { result ≡ directory_at (machine_of lay m.now) (suc i) }
{
    let at = DIRECTORIES + i * rows::DIRECTORY_ROW;
    rows::directory_at(&m[at..])
}

#[tactic(auto, using(crate::proofs::Holds::directory_written))]
pub fn set_directory(lay: Layout, m: &mut [u32], i: usize, x: Directory)
    requires { Fits lay m.old × (i < lay.directories) }
    ensures { m.new ≡ words (with_directory (machine_of lay m.old) (suc i) x) (drop (extent lay) m.old) }
{
    let at = DIRECTORIES + i * rows::DIRECTORY_ROW;
    rows::put_directory(&mut m[at..], x);
}

// Where the down word of party i of a kind stands: the first of its row, or a replica's flag.
fn down_at(lay: Layout, who: Party, i: usize) -> usize
    requires { (lay.directories ≤ 16) × (i < most_of lay who) }
    ensures { result ≡ down_at lay who i }
{
    match who {
        Party::AClient => CLIENTS + i * rows::CLIENT_ROW,
        Party::ADirectory => DIRECTORIES + i * rows::DIRECTORY_ROW,
        Party::AReplica => flags_at(lay) + i,
    }
}

// The down word of a party.
#[tactic(auto, using(crate::proofs::Read::down_read, crate::proofs::Read::down_low, crate::proofs::Read::down_inside))]
pub fn down(lay: Layout, m: &[u32], who: Party, i: usize) -> u32
    requires { Fits lay m.now × (i < most_of lay who) }
    ensures { result ≡ down_word (machine_of lay m.now) who (suc i) }
{
    m[down_at(lay, who, i)]
}

#[tactic(auto, using(crate::proofs::Read::down_low, crate::proofs::Read::down_inside, crate::proofs::Round::down_written))]
pub fn set_down(lay: Layout, m: &mut [u32], who: Party, i: usize, x: u32)
    requires { Fits lay m.old × (i < most_of lay who) }
    ensures { m.new ≡ words (with_down (machine_of lay m.old) who (suc i) x) (drop (extent lay) m.old) }
{
    m[down_at(lay, who, i)] = x;
}

// Entry e of replica i.
#[tactic(auto, using(crate::proofs::Holds::entry_written))]
pub fn set_entry(lay: Layout, m: &mut [u32], i: usize, e: usize, x: Entry)
    requires { Fits lay m.old × (i < 7) × (e < 12) }
    ensures { m.new ≡ words (with_entry (machine_of lay m.old) (suc i) (suc e) x) (drop (extent lay) m.old) }
{
    let at = entries_at(lay, i) + e * rows::ENTRY_ROW;
    rows::put_entry(&mut m[at..], x);
}
