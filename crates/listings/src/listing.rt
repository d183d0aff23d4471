// Listings: the candidates of a context, handed out one after another.
ghost use Rattle.listings.specs.Copied.{Reached};
ghost use Rattle.listings.specs.Held.{held};

use crate::call::Tally;
use copying::Copied;

// A listing over a context. It reads only its own copy of what the context says, and `close` gives the context back.
pub struct Listing<C> {
    context: C,
    copy: Copied,
    tally: Tally,
    ghost reached: { Reached (held copy) tally.last tally.handed tally.ended },
}

// The context of a listing for which there was no memory, as it was given.
pub struct Unstarted<C> {
    pub context: C,
}

mod advancing;
mod calls;
mod copying;
mod counting;
mod paging;
mod starting;

pub use starting::start;
