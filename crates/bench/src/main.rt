// Lists registers of full size: 2,048 subjects a side, and 24 and 64 conditions. It prints what it found; `bench/run` times it.
#![tactic(auto)]

mod registers;

use crate::registers::{Random, register};
use anyhow::anyhow;
use drafts::{Draft, Undrafted};
use listings::{Listing, Taken, Unstarted, start};
use records::{Candidate, Condition, Kind, read};
use std::alloc::Global;
use tables::RegisterFile;

const START: u64 = 88172645463325252;

// The most takes that one listing is asked for.
const MOST: u32 = 100000;

// What was listed: how many candidates, the sum of their links and linked subjects, and a sum over their codes.
#[derive(Clone, Copy, Default)]
struct Listed {
    candidates: u64,
    links: u64,
    linked: u64,
    codes: u64,
}

// One candidate more.
fn count(seen: Listed, record: &[u8]) -> Listed {
    match read::<Candidate>(record, 0) {
        Ok(candidate) => Listed {
            candidates: seen.candidates.saturating_add(1),
            links: seen.links.saturating_add(u64::from(candidate.links)),
            linked: seen
                .linked
                .saturating_add(u64::from(candidate.left_linked))
                .saturating_add(u64::from(candidate.right_linked)),
            codes: seen.codes.wrapping_mul(31).wrapping_add(candidate.code),
        },
        Err(_) => seen,
    }
}

fn take_all<C>(listing: &mut Listing<C>) -> Listed {
    let mut seen = Listed::default();
    for _ in 0..MOST {
        let mut record = [0; 32];
        match listing.take(0, &mut record) {
            Ok(Taken::Handed) => seen = count(seen, &record),
            Ok(Taken::Ended) | Err(_) => return seen,
        }
    }
    seen
}

// Equal and share for each of the first `lefts` left and `rights` right properties, or for like ones alone.
fn add_all(
    draft: &mut Draft<RegisterFile, RegisterFile>,
    lefts: u32,
    rights: u32,
    like: bool,
) -> usize {
    for left in 0..lefts {
        for right in 0..rights {
            for kind in [Kind::Equal, Kind::Share] {
                if !like || left == right {
                    let kind = u32::from(kind);
                    let _ = draft.add(Condition { kind, left, right });
                }
            }
        }
    }
    draft.comparisons().len()
}

fn list(heap: Global, draft: Draft<RegisterFile, RegisterFile>) -> anyhow::Result<Listed> {
    // Both ways let the tables go by name, so `?` does not do here.
    match start(heap, draft.start()) {
        Ok(mut listing) => {
            let seen = take_all(&mut listing);
            let (_, _) = listing.close().into_tables();
            Ok(seen)
        }
        Err(unstarted) => {
            let Unstarted { context } = unstarted;
            let (_, _) = context.into_tables();
            Err(anyhow!("no memory for a listing"))
        }
    }
}

// Values below `range`; of the conditions those that `add_all` gives.
fn bench(rt: &HostRuntime, range: u64, lefts: u32, rights: u32, like: bool) -> anyhow::Result<()> {
    let heap = rt.alloc();
    let mut random = Random::new(START);
    let left = register(heap, &mut random, range)?;
    let right = register(heap, &mut random, range)?;
    let mut draft = Draft::new(heap, left, right).map_err(|undrafted| {
        let Undrafted { left: _, right: _ } = undrafted;
        anyhow!("no memory for a draft")
    })?;
    let conditions = add_all(&mut draft, lefts, rights, like);
    let seen = list(heap, draft)?;
    let Listed {
        candidates,
        links,
        linked,
        codes,
    } = seen;
    println!(rt;
        "{conditions} conditions, values below {range}: {candidates} candidates, {links} links, {linked} linked, codes {codes}"
    )?;
    Ok(())
}

fn main(rt: HostRuntime) -> anyhow::Result<()> {
    bench(&rt, 60, 12, 12, true)?;
    bench(&rt, 300, 12, 12, true)?;
    bench(&rt, 3000, 12, 12, true)?;
    bench(&rt, 3000, 8, 4, false)
}
