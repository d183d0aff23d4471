// Registers of full size, with pseudo-random values.
ghost use Rattle.std.specs.Prelude.{◌<◌};

use anyhow::anyhow;
use std::alloc::Global;
use tables::RegisterFile;

const SUBJECTS: u32 = 2048;

const PROPERTIES: u32 = 12;

// How many values a subject has at a property.
const VALUES: u32 = 2;

// An xorshift generator. `brute` has another of its own: what either prints hangs on its numbers.
#[derive(Drop)]
pub struct Random {
    state: u64,
}

impl Random {
    pub fn new(start: u64) -> Random {
        Random { state: start }
    }

    // A number from 1 to `range`.
    pub fn up_to(&mut self, range: u64) -> u32 {
        let mut x = self.state;
        x ^= x.wrapping_shl(13);
        x ^= x >> 7;
        x ^= x.wrapping_shl(17);
        self.state = x;
        if range == 0 {
            return 1;
        }
        ((x % range) & 0xffff) as u32 + 1
    }
}

// Every subject has values at every property, each above the one before.
pub fn register(heap: Global, random: &mut Random, range: u64) -> anyhow::Result<RegisterFile> {
    let mut bytes = Vec::new(heap);
    for subject in 0..SUBJECTS {
        for property in 0..PROPERTIES {
            let mut value: u32 = 0;
            for _ in 0..VALUES {
                value = value.saturating_add(random.up_to(range));
                // By hand, so that the input leans on nothing that is measured.
                for field in [subject, property, value] {
                    bytes.extend_from_slice(&field.to_le_bytes())?;
                }
            }
        }
    }
    RegisterFile::new(bytes, SUBJECTS as usize, PROPERTIES as usize).map_err(|_| anyhow!(
        "a register was refused"
    ))
}
