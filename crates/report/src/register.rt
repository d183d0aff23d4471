// The program's registers: how many subjects and properties one has is told by its own records.
ghost use Rattle.std.specs.Prelude.{◌≡◌};
ghost use Rattle.report.specs.Registers.{subject_bound, property_bound, RegisterOpened};

use crate::file::{OpenError, open};
use records::Triple;
use std::alloc::Global;
use tables::RegisterFile;

// How many subjects and properties there must be at least.
#[derive(Clone, Copy, PartialEq, Eq, Debug)]
struct Bounds {
    subjects: usize,
    properties: usize,
}

impl Bounds {
    // One more than the greatest subject and the greatest property, 0 without triples.
    fn of(triples: &[Triple]) -> Bounds
        ensures subjects { result.subjects ≡ subject_bound triples.now }
        ensures properties { result.properties ≡ property_bound triples.now }
    {
        // One pass for both.
        let mut subjects: usize = 0;
        let mut properties: usize = 0;
        for triple in triples {
            subjects = subjects.max(triple.subject as usize + 1);
            properties = properties.max(triple.property as usize + 1);
        }
        Bounds {
            subjects,
            properties,
        }
    }
}

// The register file of these bytes, with the bounds that its records need.
pub fn open_register(heap: Global, bytes: Vec<u8>) -> Result<RegisterFile, OpenError>
    ensures { RegisterOpened bytes.items result }
{
    let triples = open(heap, bytes.as_slice())?;
    let bounds = Bounds::of(triples.as_slice());
    Ok(RegisterFile::new(bytes, bounds.subjects, bounds.properties)?)
}
