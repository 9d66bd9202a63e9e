// When an answered set of directories is enough: by counts, or by columns. The two tests differ in the count that they ask and in what columns ask, as their definitions do.
ghost use Rattle.std.specs.Prelude.{◌≡◌, ◌≤◌};
ghost use Rattle.sets.specs.Plain.{numbers};
ghost use Rattle.rules.specs.Quorums.{enough_to_read, enough_to_write};
ghost use Rattle.rules.specs.Inner.{FewColumns, stands, met};

use tables::Conf;

// The columns with a directory in s, or, where `inside` is false, with one out of it: column j is party j + 1 of a set.
fn columns_of(k: Conf, s: u32, inside: bool) -> u32
    requires { FewColumns k }
    ensures { result ≡ met k.columns (stands s inside) 0 (numbers 1 k.directories) }
{
    let mut known = 0;
    for d in 1..=k.directories {
        if sets::is_in(s, d) == inside {
            known = sets::added(known, (d - 1) % k.columns + 1);
        }
    }
    known
}

// Enough for reading: by columns, where not every column has a directory out of s.
#[tactic(auto, using(std::proofs::lemmas::Bool::Decides::nat_tests, crate::proofs::Columns::has_met), unfolding(crate::specs::Quorums::enough_to_read))]
pub(crate) fn can_read(k: Conf, s: u32) -> bool
    requires { (k.columns ≤ 31) × (k.directories ≤ 31) }
    ensures { result ≡ enough_to_read k s }
{
    if k.columns == 0 {
        return k.rq <= sets::size_of(s);
    }
    columns_of(k, s, false) != sets::all_of(k.columns)
}

// Enough for writing: by columns, where every column has a directory in s.
#[tactic(auto, using(std::proofs::lemmas::Bool::Decides::nat_tests, crate::proofs::Columns::meets_met), unfolding(crate::specs::Quorums::enough_to_write))]
pub(crate) fn can_write(k: Conf, s: u32) -> bool
    requires { (k.columns ≤ 31) × (k.directories ≤ 31) }
    ensures { result ≡ enough_to_write k s }
{
    if k.columns == 0 {
        return k.wq <= sets::size_of(s);
    }
    columns_of(k, s, true) == sets::all_of(k.columns)
}
