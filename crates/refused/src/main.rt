// Hands `accepted` a refused file of each kind, and prints what it prints: a fault line for each, and nothing else.
#![tactic(auto)]

use report::{Source, accepted, open_draft, open_register};
use std::io;

// A triple and a condition alike: each field is 0.
const RECORD: usize = 12;

fn main(rt: HostRuntime) -> io::Result<()> {
    let heap = rt.alloc();
    let cut = open_register(heap, vec![in heap; 0; RECORD + 1]?);
    let _ = accepted(&rt, Source::Left, cut)?;
    let repeated = open_register(heap, vec![in heap; 0; 2 * RECORD]?);
    let _ = accepted(&rt, Source::Right, repeated)?;
    let left = open_register(heap, vec![in heap; 0; RECORD]?);
    let right = open_register(heap, vec![in heap; 0; RECORD]?);
    let (Some(left), Some(right)) = (
        accepted(&rt, Source::Left, left)?,
        accepted(&rt, Source::Right, right)?,
    ) else {
        return Ok(());
    };
    let conditions = vec![in heap; 0; 2 * RECORD]?;
    let repeated = open_draft(heap, left, right, conditions.as_slice());
    if let Some(draft) = accepted(&rt, Source::Draft, repeated)? {
        let (_, _) = draft.into_tables();
    }
    Ok(())
}
