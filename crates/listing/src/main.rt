// Reads left.reg, right.reg and draft.rec in the current folder, and prints what they hold, or the first fault.
#![tactic(auto)]

use records::Kind;
use report::{Source, accepted, count_kind, draft_line, open_draft, open_register, register_line};
use std::io::Read;
use std::{fs, io};
use tables::Table;

// One byte more than a file may have shows that it is too long.
const ENOUGH: u64 = report::file::LONGEST as u64 + 1;

// A file that does not open counts as empty. Both programs have this: of a file's bytes no call can promise anything, so it is no call of `report`.
fn contents(rt: &HostRuntime, path: &str) -> io::Result<Vec<u8>> {
    let mut bytes = Vec::new(rt.alloc());
    let Ok(file) = fs::open(rt, path) else {
        return Ok(bytes);
    };
    file.take(ENOUGH).read_to_end(&mut bytes)?;
    Ok(bytes)
}

fn main(rt: HostRuntime) -> io::Result<()> {
    let heap = rt.alloc();
    let left = open_register(heap, contents(&rt, "left.reg")?);
    let Some(left) = accepted(&rt, Source::Left, left)? else {
        return Ok(());
    };
    let right = open_register(heap, contents(&rt, "right.reg")?);
    let Some(right) = accepted(&rt, Source::Right, right)? else {
        return Ok(());
    };
    let left_line = register_line(heap, Source::Left, left.subjects(), left.properties())?;
    let right_line = register_line(heap, Source::Right, right.subjects(), right.properties())?;
    let conditions = contents(&rt, "draft.rec")?;
    let draft = open_draft(heap, left, right, conditions.as_slice());
    let Some(draft) = accepted(&rt, Source::Draft, draft)? else {
        return Ok(());
    };
    let equal = count_kind(draft.comparisons(), Kind::Equal);
    let share = count_kind(draft.comparisons(), Kind::Share);
    let (_, _) = draft.into_tables();
    rt.print(left_line)?;
    rt.print(right_line)?;
    rt.print(draft_line(heap, equal, share)?)
}
