// The candidates straight from the definitions: every set of conditions is tried.
use crate::facts::{Facts, MOST, Pair};
use crate::sets::{count_members, is_member, weight};
use crate::trouble::Trouble;
use std::alloc::Global;

// A candidate, its links, and how many subjects and conditions it has.
#[derive(Drop)]
pub struct Found {
    pub code: u64,
    pub links: Vec<Pair>,
    pub left_linked: usize,
    pub right_linked: usize,
    pub conditions: usize,
}

// Whether all conditions of the set hold for the pair.
fn is_linked(pair: &Pair, k: usize, x: u64) -> bool {
    (0..k).all(|i| !is_member(x, k, i) || pair.has(i))
}

// The links of the set, in the order of the pairs.
fn links(heap: Global, facts: &Facts, x: u64) -> Result<Vec<Pair>, Trouble> {
    let mut links = Vec::new(heap);
    for pair in facts.pairs.iter() {
        if is_linked(pair, facts.conditions, x) {
            links.push(*pair)?;
        }
    }
    Ok(links)
}

fn holds_for_all(links: &[Pair], i: usize) -> bool {
    links.iter().all(|link| link.has(i))
}

// Every condition that holds for all links: the whole draft where there are none.
fn widening(links: &[Pair], k: usize) -> u64 {
    (0..k)
        .filter(|i| holds_for_all(links, *i))
        .fold(0, |wide, i| wide | weight(k, i))
}

// How many subjects of a side are in a link.
fn count_linked<F: Fn(&Pair) -> usize>(links: &[Pair], subjects: usize, side: F) -> usize
    requires { F.IsAlwaysCallable side }
{
    (0..subjects)
        .filter(|s| links.iter().any(|link| side(link) == *s))
        .count()
}

// What there is to tell of the set, if it is a candidate.
fn candidate(heap: Global, facts: &Facts, x: u64) -> Result<Option<Found>, Trouble> {
    let links = links(heap, facts, x)?;
    let tied = links.as_slice();
    if x == 0 || tied.is_empty() || widening(tied, facts.conditions) != x {
        return Ok(None);
    }
    let left_linked = count_linked(tied, facts.lefts, |link| link.left);
    let right_linked = count_linked(tied, facts.rights, |link| link.right);
    Ok(Some(Found {
        code: x,
        links,
        left_linked,
        right_linked,
        conditions: count_members(x, facts.conditions),
    }))
}

// The candidates among all sets of the conditions, by ascending codes.
pub fn candidates(heap: Global, facts: &Facts) -> Result<Vec<Found>, Trouble> {
    let mut found = Vec::new(heap);
    let sets: u64 = 1 << facts.conditions.min(MOST);
    for x in 0..sets {
        if let Some(candidate) = candidate(heap, facts, x)? {
            found.push(candidate)?;
        }
    }
    Ok(found)
}

// Whether some pair has exactly the conditions of the set.
pub fn is_of_one_pair(facts: &Facts, x: u64) -> bool {
    facts
        .pairs
        .iter()
        .any(|pair| widening(&[*pair], facts.conditions) == x)
}
