// Making a register file: the questions that are asked of the bytes, and the bytes back.
ghost use Rattle.std.specs.Prelude.{◌≡◌, ℕ, ◌<◌, IfOk, MatchResult, slice_index};
ghost use Rattle.records.specs.Questions.{Checked};
ghost use Rattle.tables.specs.Register.{comes_before, follows, triple_fault, register_fault, triples_in, Ordered};
ghost use Rattle.tables.specs.RegisterMaking.{RegisterMade, RegisterRefused};
ghost use Rattle.tables.specs.RegisterRefusals.{register_refusal};

use super::reading::{SIZE, triple_at};
use super::{RegisterFault, RegisterFile, RegisterRefusal};
use crate::bounds::{MOST_PROPERTIES, MOST_SUBJECTS};
use records::Triple;

const MOST_RECORDS: usize = 65536;

// Triples are ordered by subject, then by property, then by value, which is the order of their fields.
fn does_follow(before: Option<Triple>, triple: Triple) -> bool
    ensures { result ≡ follows before triple }
{
    before.is_none_or(|before| before < triple)
}

// Whether record number k may stand after the record before it.
fn check_record(
    k: usize,
    before: Option<Triple>,
    triple: Triple,
    subjects: usize,
    properties: usize,
) -> Result<(), RegisterFault>
    ensures { Checked register_refusal (triple_fault subjects properties k before triple) result }
{
    if triple.subject as usize >= subjects {
        return Err(RegisterFault::UnknownSubject { record: k });
    }
    if triple.property as usize >= properties {
        return Err(RegisterFault::UnknownProperty { record: k });
    }
    if !does_follow(before, triple) {
        return Err(RegisterFault::OutOfOrder { record: k });
    }
    Ok(())
}

// Asks every question of the bytes, in order. It also says what the type is to keep: each byte is below 256.
fn check(bytes: &[u8], subjects: usize, properties: usize) -> Result<(), RegisterFault>
    ensures answer { Checked register_refusal (register_fault bytes.now subjects properties) result }
    ensures small { (i : ℕ) → slice_index bytes.now i < 256 }
{
    if bytes.len() % SIZE != 0 {
        return Err(RegisterFault::CutShort);
    }
    if subjects > MOST_SUBJECTS {
        return Err(RegisterFault::TooManySubjects);
    }
    if properties > MOST_PROPERTIES {
        return Err(RegisterFault::TooManyProperties);
    }
    let count = bytes.len() / SIZE;
    if count > MOST_RECORDS {
        return Err(RegisterFault::TooManyRecords);
    }
    let mut before = None;
    // A triple is read by its number, which is also what its refusal tells.
    for k in 0..count {
        let triple = triple_at(bytes, k);
        check_record(k, before, triple, subjects, properties)?;
        before = Some(triple);
    }
    Ok(())
}

impl RegisterFile {
    // A register file of these bytes, which come back where they are refused.
    pub fn new(
        bytes: Vec<u8>,
        subjects: usize,
        properties: usize,
    ) -> Result<RegisterFile, RegisterRefusal>
        ensures answer { MatchResult result (RegisterMade bytes.items subjects properties) (RegisterRefused bytes.items subjects properties) }
        ensures ordered { IfOk result (λ t. Ordered t.subjects t.properties (triples_in t.bytes.items)) }
    {
        // Both arms take the bytes, so `?` does not do here. A tick sheet is made by the same match, of types of its own.
        match check(bytes.as_slice(), subjects, properties) {
            Ok(()) => Ok(RegisterFile {
                bytes,
                subjects,
                properties,
            }),
            Err(fault) => Err(RegisterRefusal { bytes, fault }),
        }
    }

    // The bytes, as they were given.
    pub fn into_bytes(self) -> Vec<u8>
        ensures { result ≡ self.bytes }
    {
        self.bytes
    }
}
