// One row in use, by its fields.
ghost use Rattle.std.specs.Prelude.{◌≡◌};
ghost use Rattle.inspect.specs.Good.{good_directory};
ghost use Rattle.inspect.specs.Inner.{Few, within, client_within, message_within};

use crate::fields;
use crate::limits::Limits;
use sets::Tag;
use tables::{Client, Conf, Directory, Message};

impl Limits {
    // The fields that a client and a message share. Of the page, the words joined are told.
    fn allow(self, t: Tag, set: u32, n: u32, spare: u32, page: u32) -> bool
        ensures { result ≡ within self t set n spare page }
    {
        fields::tag_within(self.number, self.client, t)
            & (set <= self.set)
            & fields::is_between(self.least, self.most, n)
            & (spare == 0)
            & (page <= self.page)
    }

    pub(crate) fn allow_client(self, w: Client, page: u32) -> bool
        ensures { result ≡ client_within self w page }
    {
        (w.down <= 1)
            & (w.answered <= self.first)
            & self.allow(w.tag, w.replicas, w.number, w.spare, page)
    }

    pub(crate) fn allow_message(self, x: Message, page: u32) -> bool
        ensures { result ≡ message_within self x page }
    {
        fields::is_between(1, self.first, x.sender)
            & fields::is_between(1, self.second, x.receiver)
            & self.allow(x.tag, x.set, x.number, x.spare, page)
    }
}

#[tactic(auto, unfolding(crate::specs::Good::good_directory))]
pub(crate) fn directory(k: Conf, d: Directory) -> bool
    requires { Few k }
    ensures { result ≡ good_directory k d }
{
    (d.down <= 1) & fields::tag(k, d.tag) & (d.set < fields::sets_of(k.replicas))
}
