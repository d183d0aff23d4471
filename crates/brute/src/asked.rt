// The conditions that a round asks for, and which of them a draft should take.
use crate::facts::{MOST, SHARE};
use crate::random::Random;
use crate::refusal::Refusal;
use crate::trouble::Trouble;
use drafts::DraftFault;
use records::Condition;
use std::alloc::Global;

// A condition, and the answer that it is due.
#[derive(Clone, Copy)]
pub struct Asked {
    pub condition: Condition,
    pub due: Result<(), Refusal<DraftFault>>,
}

// What is asked for in turn, and what of it is in the draft then.
#[derive(Drop)]
pub struct Conditions {
    pub asked: Vec<Asked>,
    pub accepted: Vec<Condition>,
}

// The answer that a condition is due. Kinds are told apart by their numbers, as the library is not asked.
fn due(
    condition: Condition,
    lefts: usize,
    rights: usize,
    known: &[Condition],
) -> Result<(), Refusal<DraftFault>> {
    if condition.kind > SHARE {
        return Err(Refusal::new(DraftFault::UnknownKind, 30));
    }
    if condition.left as usize >= lefts {
        return Err(Refusal::new(DraftFault::UnknownLeft, 15));
    }
    if condition.right as usize >= rights {
        return Err(Refusal::new(DraftFault::UnknownRight, 16));
    }
    if known.contains(&condition) {
        return Err(Refusal::new(DraftFault::Repeated, 17));
    }
    Ok(())
}

// A property of a table that has `count`, or now and then any.
fn property(random: &mut Random, count: usize) -> u32 {
    if random.below(16) == 0 {
        return random.below(5);
    }
    let known = count.min(MOST) as u32;
    random.below(known.max(1))
}

// Most kinds and properties are known, a few are not.
fn condition(random: &mut Random, lefts: usize, rights: usize) -> Condition {
    let kind = if random.below(16) == 0 {
        2
    } else {
        random.below(2)
    };
    Condition {
        kind,
        left: property(random, lefts),
        right: property(random, rights),
    }
}

// Asks up to two dozen times, and stops early where the draft has enough conditions.
pub fn ask(
    heap: Global,
    random: &mut Random,
    lefts: usize,
    rights: usize,
) -> Result<Conditions, Trouble> {
    let mut asked = Vec::new(heap);
    let mut accepted = Vec::new(heap);
    let enough = (random.below(2 * MOST as u32) as usize).min(MOST);
    for _ in 0..24 {
        if accepted.len() >= enough {
            break;
        }
        let condition = condition(random, lefts, rights);
        let due = due(condition, lefts, rights, accepted.as_slice());
        if due.is_ok() {
            accepted.push(condition)?;
        }
        asked.push(Asked { condition, due })?;
    }
    Ok(Conditions { asked, accepted })
}
