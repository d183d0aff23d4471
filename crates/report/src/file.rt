// The program's files: how long one may be, and reading all of its records.
ghost use Rattle.std.specs.Prelude.{◌≡◌, ◌<◌};
ghost use Rattle.records.specs.Questions.{Checked};
ghost use Rattle.records.specs.Refusals.{Refusal};
ghost use Rattle.report.specs.Files.{Opened, file_refusal, length_fault};
ghost use Rattle.report.specs.declared.file.FileFault.TheVariants.{Unread, Unregistered};
ghost use Rattle.report.specs.declared.file.OpenError.TheVariants.{Fault, NoMemory};

use drafts::DraftFault;
use records::{Fault, ReadFault, Record, read};
use std::alloc::{AllocFailed, Global};
use tables::{RegisterFault, RegisterRefusal};

// The most bytes that a file may have.
pub const LONGEST: usize = 65532;

// Why a file was refused.
#[derive(Clone, Copy, PartialEq, Eq, Debug)]
pub enum FileFault {
    TooLong,
    Ragged,
    Unread(ReadFault),
    Unregistered(RegisterFault),
    Undrafted { record: usize, fault: DraftFault },
}

impl Fault for FileFault {
    ghost refusal = { file_refusal };

    fn number(&self) -> u32 {
        match *self {
            FileFault::TooLong => 4,
            FileFault::Ragged => 1,
            FileFault::Unread(fault) => fault.number(),
            FileFault::Unregistered(fault) => fault.number(),
            FileFault::Undrafted { fault, .. } => fault.number(),
        }
    }

    fn place(&self) -> usize {
        match *self {
            FileFault::TooLong | FileFault::Ragged => 0,
            FileFault::Unread(fault) => fault.place(),
            FileFault::Unregistered(fault) => fault.place(),
            FileFault::Undrafted { record, .. } => record,
        }
    }
}

impl From<ReadFault> for FileFault {
    ghost from_gives = { λ fault file. file ≡ Unread fault };

    fn from(fault: ReadFault) -> FileFault {
        FileFault::Unread(fault)
    }
}

// Why a file was not opened: it was refused, or there was no memory for its records.
#[derive(Clone, Copy, PartialEq, Eq, Debug)]
pub enum OpenError {
    Fault(FileFault),
    NoMemory,
}

impl From<FileFault> for OpenError {
    ghost from_gives = { λ fault error. error ≡ Fault fault };

    fn from(fault: FileFault) -> OpenError {
        OpenError::Fault(fault)
    }
}

impl From<ReadFault> for OpenError {
    ghost from_gives = { λ fault error. error ≡ Fault (Unread fault) };

    fn from(fault: ReadFault) -> OpenError {
        OpenError::Fault(FileFault::Unread(fault))
    }
}

impl From<RegisterRefusal> for OpenError {
    ghost from_gives = { λ refusal error. error ≡ Fault (Unregistered refusal.fault) };

    fn from(refusal: RegisterRefusal) -> OpenError {
        OpenError::Fault(FileFault::Unregistered(refusal.fault))
    }
}

impl<T: Drop> From<AllocFailed<T>> for OpenError {
    ghost from_gives = { λ _ error. error ≡ NoMemory };

    fn from(_failed: AllocFailed<T>) -> OpenError {
        OpenError::NoMemory
    }
}

// Whether a file has at most as many bytes as it may, and whole records only.
pub(crate) fn check_length(bytes: &[u8], size: usize) -> Result<(), FileFault>
    requires { 0 < size }
    ensures { Checked file_refusal (length_fault size bytes.now) result }
{
    if bytes.len() > LONGEST {
        return Err(FileFault::TooLong);
    }
    if bytes.len() % size != 0 {
        return Err(FileFault::Ragged);
    }
    Ok(())
}

// Every record of a file, in order.
pub fn open<K: Record>(heap: Global, bytes: &[u8]) -> Result<Vec<K>, OpenError>
    ensures { Opened K.Record.made K.Record.allowed K.Record.size bytes.now result }
{
    let size = K::stride();
    check_length(bytes, size)?;
    let mut bodies = Vec::new(heap);
    // A record is read by its number, which is also what its refusal tells.
    for i in 0..bytes.len() / size {
        let body = read::<K>(bytes, i)?;
        bodies.push(body)?;
    }
    Ok(bodies)
}
