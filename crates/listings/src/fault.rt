// What the calls on a listing refuse. Each case has a number and a place, given by definitions in specs/.
ghost use Rattle.listings.specs.Refusals.{take_refusal, page_refusal, total_refusal};

use records::Fault;

// Why nothing was taken.
#[derive(Clone, Copy, PartialEq, Eq, Debug)]
pub enum TakeFault {
    NoSpace,
}

impl Fault for TakeFault {
    ghost refusal = { take_refusal };

    fn number(&self) -> u32 {
        match *self {
            TakeFault::NoSpace => 24,
        }
    }

    fn place(&self) -> usize {
        0
    }
}

// Why no links were paged.
#[derive(Clone, Copy, PartialEq, Eq, Debug)]
pub enum PageFault {
    NoCandidate,
    PastLinks,
    NoSpace,
}

impl Fault for PageFault {
    ghost refusal = { page_refusal };

    fn number(&self) -> u32 {
        match *self {
            PageFault::NoCandidate => 25,
            PageFault::PastLinks => 26,
            PageFault::NoSpace => 27,
        }
    }

    fn place(&self) -> usize {
        0
    }
}

// Why no total was told.
#[derive(Clone, Copy, PartialEq, Eq, Debug)]
pub enum TotalFault {
    NotEnded,
}

impl Fault for TotalFault {
    ghost refusal = { total_refusal };

    fn number(&self) -> u32 {
        match *self {
            TotalFault::NotEnded => 28,
        }
    }

    fn place(&self) -> usize {
        0
    }
}
