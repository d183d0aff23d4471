// Reads left.reg, right.reg and draft.rec in the current folder, and prints every candidate, or the first fault.
#![tactic(auto)]

use drafts::Draft;
use listings::{Listing, Unstarted, start};
use report::{Source, accepted, end_line, next_line, open_draft, open_register};
use std::alloc::AllocError;
use std::io::Read;
use std::{fs, io};
use tables::RegisterFile;

// One byte more than a file may have shows that it is too long.
const ENOUGH: u64 = report::file::LONGEST as u64 + 1;

// A file that does not open counts as empty. Both programs have this: of a file's bytes no call can promise anything, so it is no call of `report`.
fn contents(rt: &HostRuntime, path: &str) -> io::Result<Vec<u8>> {
    let mut bytes = Vec::new(rt.alloc());
    let Ok(file) = fs::open(rt, path) else {
        return Ok(bytes);
    };
    file.take(ENOUGH).read_to_end(&mut bytes)?;
    Ok(bytes)
}

// Prints a line for each candidate as it is taken, and the end.
fn print_candidates<C>(rt: &HostRuntime, listing: &mut Listing<C>) -> io::Result<()> {
    while let Some(line) = next_line(rt.alloc(), listing)? {
        rt.print(line)?;
    }
    let total = listing.total().unwrap();
    rt.print(end_line(rt.alloc(), total)?)
}

// Lists the candidates of the draft.
fn list(rt: &HostRuntime, draft: Draft<RegisterFile, RegisterFile>) -> io::Result<()> {
    // Both ways let the tables go by name, so `?` does not do here.
    match start(rt.alloc(), draft.start()) {
        Ok(mut listing) => {
            let printed = print_candidates(rt, &mut listing);
            let (_, _) = listing.close().into_tables();
            printed
        }
        Err(unstarted) => {
            let Unstarted { context } = unstarted;
            let (_, _) = context.into_tables();
            Err(AllocError.into())
        }
    }
}

// As in `listing`, a file is read only where those before it were opened.
fn main(rt: HostRuntime) -> io::Result<()> {
    let heap = rt.alloc();
    let left = open_register(heap, contents(&rt, "left.reg")?);
    let Some(left) = accepted(&rt, Source::Left, left)? else {
        return Ok(());
    };
    let right = open_register(heap, contents(&rt, "right.reg")?);
    let Some(right) = accepted(&rt, Source::Right, right)? else {
        return Ok(());
    };
    let conditions = contents(&rt, "draft.rec")?;
    let draft = open_draft(heap, left, right, conditions.as_slice());
    let Some(draft) = accepted(&rt, Source::Draft, draft)? else {
        return Ok(());
    };
    list(&rt, draft)
}
