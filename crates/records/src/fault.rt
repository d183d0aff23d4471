// What the calls on records refuse. Each case has a number and a place, given by definitions in specs/.
ghost use Rattle.std.specs.Prelude.{◌≡◌, ℕ};
ghost use Rattle.records.specs.Refusals.{Refusal, read_refusal, write_refusal, trip_refusal};
ghost use Rattle.records.specs.declared.fault.TripFault.{TripFault};

// A refusal that can tell its number and its place.
pub trait Fault {
    ghost refusal: { Self → Refusal };

    fn number(&self) -> u32
        ensures { result ≡ (refusal self.now).0 };

    fn place(&self) -> usize
        ensures { result ≡ (refusal self.now).1 };
}

// Why a record was not read.
#[derive(Clone, Copy, PartialEq, Eq, Debug)]
pub enum ReadFault {
    CutShort { record: usize },
    UnknownKind { record: usize },
}

impl Fault for ReadFault {
    ghost refusal = { read_refusal };

    fn number(&self) -> u32 {
        match *self {
            ReadFault::CutShort { .. } => 29,
            ReadFault::UnknownKind { .. } => 30,
        }
    }

    fn place(&self) -> usize {
        match *self {
            ReadFault::CutShort { record } | ReadFault::UnknownKind { record } => record,
        }
    }
}

// Why a record was not written.
#[derive(Clone, Copy, PartialEq, Eq, Debug)]
pub enum WriteFault {
    NoSpace,
    UnknownKind,
}

impl Fault for WriteFault {
    ghost refusal = { write_refusal };

    fn number(&self) -> u32 {
        match *self {
            WriteFault::NoSpace => 24,
            WriteFault::UnknownKind => 30,
        }
    }

    fn place(&self) -> usize {
        0
    }
}

// Why a record was not read, or, read, not written.
#[derive(Clone, Copy, PartialEq, Eq, Debug)]
pub enum TripFault {
    Reading(ReadFault),
    Writing(WriteFault),
}

impl From<ReadFault> for TripFault {
    ghost from_gives = { λ fault trip. trip ≡ TripFault.Reading fault };

    fn from(fault: ReadFault) -> TripFault {
        TripFault::Reading(fault)
    }
}

impl From<WriteFault> for TripFault {
    ghost from_gives = { λ fault trip. trip ≡ TripFault.Writing fault };

    fn from(fault: WriteFault) -> TripFault {
        TripFault::Writing(fault)
    }
}

impl Fault for TripFault {
    ghost refusal = { trip_refusal };

    fn number(&self) -> u32 {
        match *self {
            TripFault::Reading(fault) => fault.number(),
            TripFault::Writing(fault) => fault.number(),
        }
    }

    fn place(&self) -> usize {
        match *self {
            TripFault::Reading(fault) => fault.place(),
            TripFault::Writing(fault) => fault.place(),
        }
    }
}
