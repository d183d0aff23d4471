// Why a round stopped.
use std::alloc::{AllocError, AllocFailed};
use std::fmt;

#[derive(Clone, Copy, Debug)]
pub enum Trouble {
    NoMemory,
    // The library and the enumeration disagree: on what.
    Differs(&'static str),
}

impl From<AllocError> for Trouble {
    fn from(_error: AllocError) -> Trouble {
        Trouble::NoMemory
    }
}

impl<T: Drop> From<AllocFailed<T>> for Trouble {
    fn from(_refused: AllocFailed<T>) -> Trouble {
        Trouble::NoMemory
    }
}

impl fmt::Display for Trouble {
    fn fmt<W: fmt::Write>(&self, f: &mut fmt::Formatter<W>) -> fmt::Result {
        match *self {
            Trouble::NoMemory => write!(f, "found no memory"),
            Trouble::Differs(what) => write!(f, "differs: {what}"),
        }
    }
}

// Nothing where `holds`, and else the difference.
pub fn expect(holds: bool, what: &'static str) -> Result<(), Trouble> {
    if holds {
        Ok(())
    } else {
        Err(Trouble::Differs(what))
    }
}
