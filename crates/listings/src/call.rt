// The calls on a listing, and their answers.
use crate::fault::{PageFault, TakeFault, TotalFault};

// A call. Each has numbers and a buffer of its own.
#[derive(Drop)]
pub enum Call {
    Take { at: usize, buffer: Vec<u8> },
    Page { from: usize, buffer: Vec<u8> },
    Tally,
    Total,
}

// What a take with space did.
#[derive(Clone, Copy, PartialEq, Eq, Debug)]
pub enum Taken {
    // It wrote the next candidate's record.
    Handed,
    // Every candidate was handed out before; nothing was written.
    Ended,
}

// How many candidates were handed out, the code of the last (0 if none), and whether a take has said "ended".
#[derive(Clone, Copy, PartialEq, Eq, Default, Debug)]
pub struct Tally {
    pub handed: u64,
    pub last: u64,
    pub ended: bool,
}

// An answer, with the buffer as the call left it.
#[derive(Drop)]
pub enum Answer {
    Took {
        taken: Result<Taken, TakeFault>,
        buffer: Vec<u8>,
    },
    Paged {
        count: Result<usize, PageFault>,
        buffer: Vec<u8>,
    },
    Tallied(Tally),
    Totalled(Result<u64, TotalFault>),
}
