// Register files: triples in order, as bytes.
ghost use Rattle.std.specs.Prelude.{◌≡◌, ℕ, ◌<◌, false, is_some, slice_index};
ghost use Rattle.tables.specs.Register.{register_fault};

// A table of triples. Every subject is present, and a question costs two binary searches at most.
#[derive(Drop)]
pub struct RegisterFile {
    bytes: Vec<u8>,
    subjects: usize,
    properties: usize,
    ghost allowed: { is_some (register_fault bytes.items subjects properties) ≡ false },
    ghost small: { (i : ℕ) → slice_index bytes.items i < 256 },
}

// Why bytes are no register file.
#[derive(Clone, Copy, PartialEq, Eq, Debug)]
pub enum RegisterFault {
    CutShort,
    TooManySubjects,
    TooManyProperties,
    TooManyRecords,
    UnknownSubject { record: usize },
    UnknownProperty { record: usize },
    OutOfOrder { record: usize },
}

// The bytes that were refused, as they were given, and why.
#[derive(Drop)]
pub struct RegisterRefusal {
    pub bytes: Vec<u8>,
    pub fault: RegisterFault,
}

mod asking;
mod fault;
mod making;
mod reading;
#[cfg(test)]
mod tests;
