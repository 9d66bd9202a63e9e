// The tests of single fields.
ghost use Rattle.std.specs.Prelude.{◌≡◌, ◌^◌, ◌≤◌, eqb, if◌then◌else◌};
ghost use Rattle.tables.specs.Layouts.{in_columns};
ghost use Rattle.inspect.specs.Good.{between, zeros, good_counts, good_columns, good_numbers, good_tag, tag_within};

use sets::Tag;
use tables::Conf;

// The words joined by `|`.
pub(crate) fn joined(s: &[u32]) -> u32
    ensures { eqb result 0 ≡ zeros s.now }
{
    s.iter().fold(0, |any, word| any | *word)
}

// Whether every word is zero.
pub(crate) fn zero(s: &[u32]) -> bool
    ensures { result ≡ zeros s.now }
{
    joined(s) == 0
}

fn counts(k: Conf) -> bool
    ensures { result ≡ good_counts k }
{
    is_between(1, k.directories, k.rq)
        & is_between(1, k.directories, k.wq)
        & (u64::from(k.directories) < u64::from(k.rq) + u64::from(k.wq))
        & (k.columns == 0)
}

fn columns(k: Conf) -> bool
    ensures { result ≡ good_columns k }
{
    (2 <= k.directories)
        & is_between(1, k.directories, k.columns)
        & k.directories.is_multiple_of(k.columns)
        & (k.rq == 0)
        & (k.wq == 0)
}

// Counts or columns, by the rows for directories.
fn quorums(n: u32, k: Conf) -> bool
    ensures { result ≡ (if in_columns n then good_columns k else good_counts k) }
{
    if n == 16 { columns(k) } else { counts(k) }
}

// The numbers are in range, in a machine with room for n directories: set-up's test too.
#[tactic(auto, unfolding(crate::specs::Good::good_numbers))]
pub fn numbers(n: u32, k: Conf) -> bool
    ensures { result ≡ good_numbers n k }
{
    is_between(1, 8, k.clients)
        & is_between(1, n, k.directories)
        & is_between(1, 7, k.replicas)
        & (k.f <= 3)
        & (2 * u64::from(k.f) + 1 <= u64::from(k.replicas))
        & quorums(n, k)
        & is_between(3, u32::MAX, k.top)
}

pub fn is_between(low: u32, high: u32, n: u32) -> bool
    ensures { result ≡ between low high n }
{
    (low..=high).contains(&n)
}

pub(crate) fn tag(k: Conf, t: Tag) -> bool
    ensures { result ≡ good_tag k t }
{
    tag_within(k.top, k.clients, t)
}

// At most that number and that client, and both are 0 or neither is.
pub(crate) fn tag_within(number: u32, client: u32, t: Tag) -> bool
    ensures { result ≡ tag_within number client t }
{
    (t.number <= number) & (t.client <= client) & ((t.number == 0) == (t.client == 0))
}

// How many sets of n parties there are.
pub(crate) fn sets_of(n: u32) -> u32
    requires { n ≤ 31 }
    ensures { result ≡ 2 ^ n }
{
    1 << n
}
