// Drafts: two tables, and the conditions that are to hold between them.
ghost use Rattle.std.specs.Prelude.{◌≡◌, ◌≤◌, vec_len, vec_capacity};
ghost use Rattle.drafts.specs.Drafting.{draft_refusal};
ghost use Rattle.drafts.specs.declared.draft.DraftFault.{DraftFault};

use crate::comparison::Comparison;
use records::{Fault, UnknownKind};

mod book;
mod calls;
mod code;
mod freezing;
mod lists;
mod live;
mod prepared;
mod rows;

pub use freezing::FreezeFault;
pub use live::Live;

// Up to 64 comparisons over two tables. The memory for all of them is there from the start.
pub struct Draft<L, R> {
    left: L,
    right: R,
    comparisons: Vec<Comparison>,
    ghost few: { vec_len comparisons ≤ 64 },
    ghost reserved: { 64 ≤ vec_capacity comparisons },
}

// The tables of a draft for which there was no memory, as they were given.
pub struct Undrafted<L, R> {
    pub left: L,
    pub right: R,
}

// Why a condition was not added.
#[derive(Clone, Copy, PartialEq, Eq, Debug)]
pub enum DraftFault {
    UnknownKind,
    UnknownLeft,
    UnknownRight,
    Repeated,
    Full,
}

impl From<UnknownKind> for DraftFault {
    ghost from_gives = { λ _ fault. fault ≡ DraftFault.UnknownKind };

    fn from(_unknown: UnknownKind) -> DraftFault {
        DraftFault::UnknownKind
    }
}

impl Fault for DraftFault {
    ghost refusal = { draft_refusal };

    fn number(&self) -> u32 {
        match *self {
            DraftFault::UnknownKind => 30,
            DraftFault::UnknownLeft => 15,
            DraftFault::UnknownRight => 16,
            DraftFault::Repeated => 17,
            DraftFault::Full => 18,
        }
    }

    fn place(&self) -> usize {
        0
    }
}
