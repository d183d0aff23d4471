// Small tables and layers, made at random.
use crate::random::Random;
use crate::trouble::Trouble;
use layers::{FoldingList, Picks};
use std::alloc::Global;
use tables::{RegisterFile, TickSheet};

// Few values, so that lists often share one.
const VALUES: u32 = 4;

// How many sets of values there are.
const VALUE_SETS: u32 = 16;

const MOST_SUBJECTS: u32 = 5;

const MOST_PROPERTIES: u32 = 3;

// A set of values as bits. Few sets come often, so that lists are often equal, and often empty.
fn values(random: &mut Random) -> u32 {
    match random.below(8) {
        0 => 0,
        1 | 2 => random.below(VALUE_SETS),
        3 => 3,
        _ => 1 + random.below(2),
    }
}

// How many subjects a table has. Most have many, since the others give few candidates.
fn subjects(random: &mut Random) -> u32 {
    random.below(2 * MOST_SUBJECTS).min(MOST_SUBJECTS)
}

// How many properties a table has, more often many.
fn properties(random: &mut Random) -> u32 {
    (1 + random.below(2 * MOST_PROPERTIES)).min(MOST_PROPERTIES)
}

// The triples of a subject and a property, ascending.
fn push_triples(
    bytes: &mut Vec<u8>,
    subject: u32,
    property: u32,
    values: u32,
) -> Result<(), Trouble> {
    for value in 0..VALUES {
        if (values >> value) % 2 == 1 {
            // By hand, so that the input leans on nothing that is checked.
            for field in [subject, property, value] {
                bytes.extend_from_slice(&field.to_le_bytes())?;
            }
        }
    }
    Ok(())
}

fn triples(
    heap: Global,
    random: &mut Random,
    subjects: u32,
    properties: u32,
) -> Result<Vec<u8>, Trouble> {
    let mut bytes = Vec::new(heap);
    for subject in 0..subjects {
        for property in 0..properties {
            let values = values(random);
            push_triples(&mut bytes, subject, property, values)?;
        }
    }
    Ok(bytes)
}

// A register file: every subject is present, though its lists may be empty.
pub fn register(heap: Global, random: &mut Random) -> Result<RegisterFile, Trouble> {
    let subjects = subjects(random);
    let properties = properties(random);
    let bytes = triples(heap, random, subjects, properties)?;
    RegisterFile::new(bytes, subjects as usize, properties as usize).map_err(|_| Trouble::Differs(
        "a register file was refused",
    ))
}

// The words of one subject, which is absent one time in six.
fn push_row(words: &mut Vec<u64>, random: &mut Random, properties: u32) -> Result<(), Trouble> {
    let present = random.below(6) != 0;
    words.push(u64::from(present))?;
    for _ in 0..properties {
        let ticks = if present { values(random) } else { 0 };
        words.push(u64::from(ticks))?;
    }
    Ok(())
}

// A tick sheet, with absent subjects among the others.
pub fn sheet(heap: Global, random: &mut Random) -> Result<TickSheet, Trouble> {
    let subjects = subjects(random);
    let properties = properties(random);
    let mut words = Vec::new(heap);
    for _ in 0..subjects {
        push_row(&mut words, random, properties)?;
    }
    TickSheet::new(words, subjects as usize, properties as usize).map_err(|_| Trouble::Differs(
        "a tick sheet was refused",
    ))
}

// Up to three entries; those that the list refuses are left out.
pub fn foldings(heap: Global, random: &mut Random) -> Result<FoldingList, Trouble> {
    let mut list = FoldingList::new(heap)?;
    for _ in 0..random.below(4) {
        let from = random.below(VALUES);
        let to = random.below(VALUES + 2);
        let _ = list.add(from, to);
    }
    Ok(list)
}

// Two to four picks, some of which name no property.
pub fn picks(heap: Global, random: &mut Random) -> Result<Picks, Trouble> {
    let mut picks = Picks::new(heap)?;
    for _ in 0..2 + random.below(3) {
        let _ = picks.add(random.below(MOST_PROPERTIES + 1) as usize);
    }
    Ok(picks)
}

// A property and a value for a kind layer, most often such as many subjects have.
pub fn kind(random: &mut Random) -> (usize, u32) {
    let property = random.below(MOST_PROPERTIES) as usize;
    if random.below(8) == 0 {
        (property, random.below(VALUES))
    } else {
        (property % 2, random.below(2))
    }
}
