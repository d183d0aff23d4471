// The order of calls: two tables, a draft, a listing, and the tables back. Each step consumes what the step before it made.
// A counter keeps its draft and its listing in slots, so that the order is a fact to prove: a slot that was emptied has no draft to add to and no listing to take from.
#![tactic(auto)]

ghost use Rattle.std.specs.Prelude.{◌≡◌, true, false, is_some};

mod diary;

use crate::diary::{Diary, Step};
use anyhow::anyhow;
use drafts::{Draft, Live, Undrafted};
use listings::{Listing, Taken, Unstarted, start};
use records::{Candidate, Condition, Kind, Triple, read};
use std::alloc::Global;
use tables::{RegisterFile, Table};

const FOUND: [Triple; 4] = [
    Triple {
        subject: 0,
        property: 0,
        value: 1,
    },
    Triple {
        subject: 0,
        property: 1,
        value: 10,
    },
    Triple {
        subject: 1,
        property: 0,
        value: 2,
    },
    Triple {
        subject: 1,
        property: 1,
        value: 11,
    },
];

const REPORTED: [Triple; 5] = [
    Triple {
        subject: 0,
        property: 0,
        value: 1,
    },
    Triple {
        subject: 0,
        property: 1,
        value: 11,
    },
    Triple {
        subject: 1,
        property: 0,
        value: 2,
    },
    Triple {
        subject: 1,
        property: 1,
        value: 10,
    },
    Triple {
        subject: 1,
        property: 1,
        value: 11,
    },
];

const SUBJECTS: usize = 2;

const PROPERTIES: usize = 2;

// The bytes of a candidate.
const CANDIDATE: usize = 32;

// The values at property 0 agree.
const EQUAL: Condition = Condition {
    kind: Kind::Equal as u32,
    left: 0,
    right: 0,
};

// A value at property 1 is common.
const SHARE: Condition = Condition {
    kind: Kind::Share as u32,
    left: 1,
    right: 1,
};

fn register(heap: Global, triples: &[Triple]) -> anyhow::Result<RegisterFile> {
    let mut bytes = Vec::new(heap);
    for triple in triples {
        for field in [triple.subject, triple.property, triple.value] {
            bytes.extend_from_slice(&field.to_le_bytes())?;
        }
    }
    RegisterFile::new(bytes, SUBJECTS, PROPERTIES).map_err(|_| anyhow!("a register was refused"))
}

// An empty draft over the tables.
fn draft(
    heap: Global,
    left: RegisterFile,
    right: RegisterFile,
) -> anyhow::Result<Draft<RegisterFile, RegisterFile>> {
    Draft::new(heap, left, right).map_err(|undrafted| {
        let Undrafted { left: _, right: _ } = undrafted;
        anyhow!("no memory for a draft")
    })
}

// Adds to the draft in the slot.
fn add(slot: &mut Option<Draft<RegisterFile, RegisterFile>>, condition: Condition) -> Step
    requires { is_some slot.old ≡ true }
    ensures { is_some slot.new ≡ true }
{
    match slot.as_mut().unwrap().add(condition) {
        Ok(()) => Step::Added,
        Err(_) => Step::Refused,
    }
}

// Starts the draft in the slot, and leaves the slot empty.
fn begin(slot: &mut Option<Draft<RegisterFile, RegisterFile>>) -> Live<RegisterFile, RegisterFile>
    requires { is_some slot.old ≡ true }
    ensures { is_some slot.new ≡ false }
{
    slot.take().unwrap().start()
}

// A listing that has handed out nothing.
fn list(
    heap: Global,
    live: Live<RegisterFile, RegisterFile>,
) -> anyhow::Result<Listing<Live<RegisterFile, RegisterFile>>> {
    start(heap, live).map_err(|unstarted| {
        let Unstarted { context } = unstarted;
        let (_, _) = context.into_tables();
        anyhow!("no memory for a listing")
    })
}

// Takes from the listing in the slot.
fn take<C>(slot: &mut Option<Listing<C>>) -> Step
    requires { is_some slot.old ≡ true }
    ensures { is_some slot.new ≡ true }
{
    let mut record = [0; CANDIDATE];
    match slot.as_mut().unwrap().take(0, &mut record) {
        Ok(Taken::Handed) => told(&record),
        Ok(Taken::Ended) => Step::Ended,
        Err(_) => Step::Untaken,
    }
}

fn told(record: &[u8]) -> Step {
    match read::<Candidate>(record, 0) {
        Ok(candidate) => Step::Took {
            code: candidate.code,
            links: candidate.links,
        },
        Err(_) => Step::Untaken,
    }
}

// Closes the listing in the slot, and leaves the slot empty.
fn close<C>(slot: &mut Option<Listing<C>>) -> C
    requires { is_some slot.old ≡ true }
    ensures { is_some slot.new ≡ false }
{
    slot.take().unwrap().close()
}

// Drafts a condition, and starts the draft.
fn draft_by(
    diary: &mut Diary<'_>,
    draft: Draft<RegisterFile, RegisterFile>,
    condition: Condition,
) -> Live<RegisterFile, RegisterFile> {
    let mut slot = Some(draft);
    diary.note(Step::Drafted);
    diary.note(add(&mut slot, condition));
    let live = begin(&mut slot);
    diary.note(Step::Started);
    if let Some(draft) = slot {
        let (_, _) = draft.into_tables();
    }
    live
}

// Takes so often from a listing, and closes it.
fn take_from(
    diary: &mut Diary<'_>,
    listing: Listing<Live<RegisterFile, RegisterFile>>,
    takes: u32,
) -> Live<RegisterFile, RegisterFile> {
    let mut slot = Some(listing);
    diary.note(Step::Listed);
    for _ in 0..takes {
        diary.note(take(&mut slot));
    }
    let context = close(&mut slot);
    diary.note(Step::Closed);
    if let Some(listing) = slot {
        let (_, _) = listing.close().into_tables();
    }
    context
}

// Drafts a condition over the tables, takes from its listing, and hands the tables back.
fn list_by(
    heap: Global,
    diary: &mut Diary<'_>,
    tables: (RegisterFile, RegisterFile),
    condition: Condition,
    takes: u32,
) -> anyhow::Result<(RegisterFile, RegisterFile)> {
    let (left, right) = tables;
    let live = draft_by(diary, draft(heap, left, right)?, condition);
    let live = take_from(diary, list(heap, live)?, takes);
    let (left, right) = live.into_tables();
    diary.note(Step::Returned {
        lefts: left.subjects(),
        rights: right.subjects(),
    });
    Ok((left, right))
}

fn main(rt: HostRuntime) -> anyhow::Result<()> {
    let heap = rt.alloc();
    let mut diary = Diary::new(&rt);
    let tables = (register(heap, &FOUND)?, register(heap, &REPORTED)?);
    diary.note(Step::Made);
    let tables = list_by(heap, &mut diary, tables, EQUAL, 2)?;
    let (_, _) = list_by(heap, &mut diary, tables, SHARE, 1)?;
    diary.end()?;
    Ok(())
}
