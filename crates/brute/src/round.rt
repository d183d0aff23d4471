// One round: two tables, a draft, and its listings beside the enumeration.
use crate::asked::{Asked, Conditions, ask};
use crate::enumeration::{Found, candidates, is_of_one_pair};
use crate::facts::{Facts, gather};
use crate::random::Random;
use crate::trial::check_listing;
use crate::trouble::{Trouble, expect};
use contexts::Context;
use drafts::{Draft, Undrafted};
use listings::{Unstarted, start};
use std::alloc::Global;
use tables::Table;

// What a round compared.
#[derive(Clone, Copy)]
pub struct Seen {
    pub conditions: u64,
    pub refused: u64,
    pub candidates: u64,
    // Candidates that no pair has exactly.
    pub joint: u64,
    pub links: u64,
}

// Adds every condition that is asked for, and compares the answers.
fn add_all<L: Table, R: Table>(draft: &mut Draft<L, R>, asked: &[Asked]) -> Result<(), Trouble> {
    for one in asked {
        let answer = draft.add(one.condition);
        let is_due = match one.due {
            Ok(()) => answer.is_ok(),
            Err(refusal) => refusal.is_told_by(&answer),
        };
        expect(is_due, "the answer to a condition")?;
    }
    Ok(())
}

// Lists the context, which comes back with what the comparison says.
fn list<C: Context>(
    heap: Global,
    context: C,
    facts: &Facts,
    expected: &[Found],
) -> (C, Result<(), Trouble>) {
    // Both ways hand the context back, so `?` does not do here.
    match start(heap, context) {
        Ok(mut listing) => {
            let compared = check_listing(&mut listing, facts, expected);
            (listing.close(), compared)
        }
        Err(unstarted) => {
            let Unstarted { context } = unstarted;
            (context, Err(Trouble::NoMemory))
        }
    }
}

// Lists the draft and its row book, and hands the tables back.
fn compare_drafted<L: Table + Drop, R: Table + Drop>(
    heap: Global,
    left: L,
    right: R,
    asked: &[Asked],
    facts: &Facts,
    expected: &[Found],
) -> Result<(L, R), Trouble> {
    let mut draft = Draft::new(heap, left, right).map_err(|undrafted| {
        let Undrafted { left: _, right: _ } = undrafted;
        Trouble::NoMemory
    })?;
    let added = add_all(&mut draft, asked);
    let book = draft.book(heap);
    let (live, compared) = list(heap, draft.start(), facts, expected);
    let (left, right) = live.into_tables();
    added?;
    compared?;
    let (_, compared) = list(heap, book?, facts, expected);
    compared?;
    Ok((left, right))
}

fn count_seen(conditions: &Conditions, facts: &Facts, expected: &[Found]) -> Seen {
    let accepted = conditions.accepted.len() as u64;
    let joint = expected
        .iter()
        .filter(|found| !is_of_one_pair(facts, found.code))
        .count() as u64;
    let links = expected.iter().fold(0, |links: u64, found| {
        links.saturating_add(found.links.len() as u64)
    });
    Seen {
        conditions: accepted,
        refused: (conditions.asked.len() as u64).saturating_sub(accepted),
        candidates: expected.len() as u64,
        joint,
        links,
    }
}

// Compares a random draft over these tables, and sees that they come back as they were.
pub fn compare<L: Table + Drop, R: Table + Drop>(
    heap: Global,
    random: &mut Random,
    left: L,
    right: R,
) -> Result<Seen, Trouble> {
    let conditions = ask(heap, random, left.properties(), right.properties())?;
    let accepted = conditions.accepted.as_slice();
    let before = gather(heap, &left, &right, accepted)?;
    let expected = candidates(heap, &before)?;
    let (left, right) = compare_drafted(
        heap,
        left,
        right,
        conditions.asked.as_slice(),
        &before,
        expected.as_slice(),
    )?;
    let after = gather(heap, &left, &right, accepted)?;
    expect(after == before, "the tables that come back")?;
    Ok(count_seen(&conditions, &before, expected.as_slice()))
}
