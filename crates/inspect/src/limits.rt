// What a row in use may hold, by the kind of a message or the phase of a client: a field not in use at most 0. That the numbers are small (`Few`) is asked, and no part of their type: set-up takes any numbers.
ghost use Rattle.std.specs.Prelude.{◌≡◌};
ghost use Rattle.inspect.specs.Inner.{Few, limits_of, kind_table, phase_table};

use crate::fields;
use tables::Conf;

#[derive(Clone, Copy)]
pub(crate) struct Limits {
    pub first: u32, // at most: a message's sender, a client's answered set
    pub second: u32, // a message's receiver
    pub number: u32, // the tag's number
    pub client: u32, // the tag's client
    pub set: u32, // the set of replicas, or a message's mark
    pub least: u32, // at least: the message number
    pub most: u32, // at most
    pub page: u32, // the page's words joined
}

// From a row of a table of limits.
impl From<[u32; 8]> for Limits {
    ghost from_gives = { λ l y. y ≡ limits_of l };

    #[tactic(auto, unfolding(crate::specs::Inner::limits_of))]
    fn from(l: [u32; 8]) -> Limits {
        let [first, second, number, client, set, least, most, page] = l;
        Limits {
            first,
            second,
            number,
            client,
            set,
            least,
            most,
            page,
        }
    }
}

// By kind.
pub(crate) fn kinds(k: Conf) -> [[u32; 8]; 16]
    requires { Few k }
    ensures { result ≡ kind_table k }
{
    let c = k.clients;
    let d = k.directories;
    let r = k.replicas;
    let t = k.top;
    let s = fields::sets_of(r) - 1;
    let p = u32::MAX;
    [
        [0, 0, 0, 0, 0, 1, t, 0], // 0 empty
        [c, d, 0, 0, 0, 1, t, 0], // 1 rread
        [c, d, t, c, s, 1, t, 0], // 2 rwrite
        [c, d, 0, 0, 0, 1, t, 0], // 3 wread
        [c, d, t, c, s, 1, t, 0], // 4 wwrite
        [d, c, t, c, s, 1, t, 0], // 5 to 8 their replies
        [d, c, 0, 0, 0, 1, t, 0],
        [d, c, t, c, 0, 1, t, 0],
        [d, c, 0, 0, 0, 1, t, 0],
        [c, r, t, c, 0, 1, t, 0], // 9 read
        [c, r, t, c, 0, 1, t, p], // 10 write
        [c, r, t, c, 0, 1, t, 0], // 11 secure
        [r, c, t, c, 1, 1, t, p], // 12 read-ok, and its mark
        [r, c, 0, 0, 0, 1, t, 0], // 13 write-ok
        [r, d, t, c, 0, 0, 0, 0], // 14 notice
        [r, r, t, c, 0, 0, 0, p], // 15 gossip
    ]
}

// By phase.
pub(crate) fn phases(k: Conf) -> [[u32; 8]; 7]
    requires { Few k }
    ensures { result ≡ phase_table k }
{
    let c = k.clients;
    let t = k.top;
    let s = fields::sets_of(k.replicas) - 1;
    let d = fields::sets_of(k.directories) - 1;
    let p = u32::MAX;
    [
        [0, 0, 0, 0, 0, 0, t, 0], // 0 idle
        [d, 0, t, c, s, 1, t - 2, 0], // 1 rdr
        [d, 0, t, c, s, 1, t - 1, 0], // 2 rdw
        [0, 0, t, c, s, 1, t, 0], // 3 rrr
        [d, 0, t, c, 0, 1, t - 2, p], // 4 wdr
        [s, 0, t, c, 0, 1, t - 1, p], // 5 wrw
        [d, 0, t, c, s, 1, t, p], // 6 wdw
    ]
}
