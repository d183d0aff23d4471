// What the enumeration asks the tables for: present pairs, and which conditions hold for each.
use crate::list::{List, equal, share};
use crate::trouble::Trouble;
use records::Condition;
use std::alloc::Global;
use tables::Table;

// The most conditions of a round, so that there are at most 128 sets.
pub const MOST: usize = 7;

// The numbers of the two kinds of condition.
pub const EQUAL: u32 = 0;

pub const SHARE: u32 = 1;

// Two present subjects, and which of the conditions hold for them.
#[derive(Clone, Copy, PartialEq, Eq, Debug)]
pub struct Pair {
    pub left: usize,
    pub right: usize,
    holds: [bool; MOST],
}

impl Pair {
    // Whether condition number i holds for the pair.
    pub fn has(&self, i: usize) -> bool {
        i < MOST && self.holds[i]
    }
}

// All that the enumeration asks the tables for.
#[derive(PartialEq, Eq, Drop)]
pub struct Facts {
    pub lefts: usize,
    pub rights: usize,
    pub left_present: usize,
    pub right_present: usize,
    pub conditions: usize,
    pub pairs: Vec<Pair>,
}

// Equal or share, by the number of the kind; only known kinds are accepted.
fn does_hold<L: Table, R: Table>(
    condition: Condition,
    left: &L,
    right: &R,
    s: usize,
    t: usize,
) -> bool {
    let left = List::new(left, s, condition.left as usize);
    let right = List::new(right, t, condition.right as usize);
    match condition.kind {
        EQUAL => equal(&left, &right),
        SHARE => share(&left, &right),
        _ => false,
    }
}

// Two tables, and the conditions to decide between them.
#[derive(Drop)]
struct Sides<'a, L, R> {
    left: &'a L,
    right: &'a R,
    conditions: &'a [Condition],
}

impl<'a, L: Table, R: Table> Sides<'a, L, R> {
    // Decides every condition for left subject `s` and right subject `t`.
    fn judge(&self, s: usize, t: usize) -> Pair {
        let mut holds = [false; MOST];
        for (holds, condition) in holds.iter_mut().zip(self.conditions) {
            *holds = does_hold(*condition, self.left, self.right, s, t);
        }
        Pair {
            left: s,
            right: t,
            holds,
        }
    }

    // The pairs of present subjects, ascending by the left, then by the right subject.
    fn pairs(&self, heap: Global) -> Result<Vec<Pair>, Trouble> {
        let mut pairs = Vec::new(heap);
        // Tables are asked by number.
        for s in 0..self.left.subjects() {
            for t in 0..self.right.subjects() {
                if self.left.is_present(s) && self.right.is_present(t) {
                    pairs.push(self.judge(s, t))?;
                }
            }
        }
        Ok(pairs)
    }
}

fn count_present<T: Table>(table: &T) -> usize {
    (0..table.subjects())
        .filter(|s| table.is_present(*s))
        .count()
}

// Asks the two tables.
pub fn gather<L: Table, R: Table>(
    heap: Global,
    left: &L,
    right: &R,
    conditions: &[Condition],
) -> Result<Facts, Trouble> {
    let sides = Sides {
        left,
        right,
        conditions,
    };
    Ok(Facts {
        lefts: left.subjects(),
        rights: right.subjects(),
        left_present: count_present(left),
        right_present: count_present(right),
        conditions: conditions.len(),
        pairs: sides.pairs(heap)?,
    })
}
