// Messages that a step sends.
ghost use Rattle.std.specs.Prelude.{◌≡◌};
ghost use Rattle.tables.specs.Tables.{no_page};
ghost use Rattle.mail.specs.Posts.{message, post, no_post};

use crate::Post;
use sets::Tag;
use tables::{Message, blank};

// A message with a page.
pub fn paged(
    kind: u32,
    sender: u32,
    t: Tag,
    set: u32,
    number: u32,
    page: [u32; 16],
    to: u32,
) -> Post
    ensures { result ≡ post (message kind sender t set number page) to }
{
    let message = Message {
        kind,
        sender,
        receiver: 0,
        tag: t,
        set,
        number,
        spare: 0,
        page,
    };
    Post { message, to }
}

// A message without a page.
pub fn bare(kind: u32, sender: u32, t: Tag, set: u32, number: u32, to: u32) -> Post
    ensures { result ≡ post (message kind sender t set number no_page) to }
{
    paged(kind, sender, t, set, number, blank::no_page(), to)
}

// What a step sends that sends nothing: a message to nobody, and no option, since the definitions know a post by its set alone (`messages_of`).
pub fn nothing() -> Post
    ensures { result ≡ no_post }
{
    Post {
        message: blank::no_message(),
        to: 0,
    }
}
