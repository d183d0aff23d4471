// The program's draft: the conditions of a file, added one by one.
ghost use Rattle.std.specs.Prelude.{◌≡◌, ◌/◌, ◌<◌, length, is_ok, if◌then◌else◌, OnOk};
ghost use Rattle.records.specs.Kinds.{condition_of};
ghost use Rattle.records.specs.Questions.{Checked};
ghost use Rattle.records.specs.Reading.{bodies};
ghost use Rattle.drafts.specs.Comparisons.{comparison_of};
ghost use Rattle.drafts.specs.Drafting.{with_more};
ghost use Rattle.report.specs.Drafts.{condition_at, at_record_fault, conditions_fault, drafted, of_kind, DraftOpened};
ghost use Rattle.report.specs.Files.{file_refusal};

use crate::file::{FileFault, OpenError, check_length};
use drafts::{Comparison, Draft, Undrafted};
use records::{Condition, Kind, read};
use std::alloc::Global;
use tables::RegisterFile;

// How many bytes a condition takes.
const SIZE: usize = 12;

// Adds condition number i of the file.
fn add_record(
    draft: &mut Draft<RegisterFile, RegisterFile>,
    bytes: &[u8],
    i: usize,
) -> Result<(), FileFault>
    requires { i < length bytes.now / 12 }
    ensures answer { Checked file_refusal (at_record_fault draft.old.left.properties draft.old.right.properties i draft.old.comparisons.items (condition_at bytes.now i)) result }
    ensures after { draft.new.comparisons.items ≡ (if is_ok result then with_more draft.old.comparisons.items (comparison_of (condition_at bytes.now i)) else draft.old.comparisons.items) }
    ensures left { draft.new.left ≡ draft.old.left }
    ensures right { draft.new.right ≡ draft.old.right }
{
    let condition = read::<Condition>(bytes, i)?;
    draft
        .add(condition)
        .map_err(|fault| FileFault::Undrafted { record: i, fault })
}

// Adds every condition of the file, in order.
fn add_records(draft: &mut Draft<RegisterFile, RegisterFile>, bytes: &[u8]) -> Result<(), FileFault>
    ensures answer { Checked file_refusal (conditions_fault draft.old.left.properties draft.old.right.properties 0 draft.old.comparisons.items (bodies condition_of 12 bytes.now)) result }
    ensures after { OnOk result (draft.new.comparisons.items ≡ drafted draft.old.comparisons.items (bodies condition_of 12 bytes.now)) }
    ensures left { draft.new.left ≡ draft.old.left }
    ensures right { draft.new.right ≡ draft.old.right }
{
    // A condition is added by its number, which is also what its refusal tells.
    for i in 0..bytes.len() / SIZE {
        add_record(draft, bytes, i)?;
    }
    Ok(())
}

// The draft of the conditions of a file over two register files.
pub fn open_draft(
    heap: Global,
    left: RegisterFile,
    right: RegisterFile,
    bytes: &[u8],
) -> Result<Draft<RegisterFile, RegisterFile>, OpenError>
    ensures { DraftOpened left right bytes.now result }
{
    check_length(bytes, SIZE)?;
    let mut draft = Draft::new(heap, left, right).map_err(|undrafted| {
        let Undrafted { left: _, right: _ } = undrafted;
        OpenError::NoMemory
    })?;
    match add_records(&mut draft, bytes) {
        Ok(()) => Ok(draft),
        Err(fault) => {
            // A draft is let go by name, so `?` does not do here.
            let (_, _) = draft.into_tables();
            Err(OpenError::Fault(fault))
        }
    }
}

// How many of the comparisons are of a kind.
pub fn count_kind(comparisons: &[Comparison], kind: Kind) -> usize
    ensures { result ≡ of_kind kind comparisons.now }
{
    comparisons
        .iter()
        .filter(|comparison| comparison.kind == kind)
        .count()
}
