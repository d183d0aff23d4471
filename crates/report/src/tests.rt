// Files at both edges of every refusal, and every line letter by letter.
use crate::accepting::accepted;
use crate::draft::{count_kind, open_draft};
use crate::file::{FileFault, OpenError, open};
use crate::lines::{candidate_line, draft_line, end_line, fault_line, register_line};
use crate::register::open_register;
use crate::source::Source;
use records::{Candidate, Fault, Kind, Triple};
use std::alloc::Global;
use std::process::Abort;
use std::test::Fail;
use tables::{RegisterFile, Table};

fn bytes(heap: Global, records: &[[u32; 3]]) -> Result<Vec<u8>, Fail> {
    let mut bytes = Vec::new(heap);
    for record in records {
        for field in record {
            for byte in field.to_le_bytes() {
                bytes.push(byte)?;
            }
        }
    }
    Ok(bytes)
}

// The number and the place of a refusal, (0, 0) where there is none.
fn told<T: Drop>(opened: Result<T, OpenError>) -> Result<(u32, usize), Fail> {
    match opened {
        Ok(_) => Ok((0, 0)),
        Err(OpenError::Fault(fault)) => Ok((fault.number(), fault.place())),
        Err(OpenError::NoMemory) => Err(Fail::new("no memory")),
    }
}

fn zeros(heap: Global, count: usize) -> Result<(u32, usize), Fail> {
    let file = vec![in heap; 0; count]?;
    told(open::<Triple>(heap, file.as_slice()))
}

#[test]
fn lengths(rt: HostRuntime) -> Result<(), Fail> {
    let heap = rt.alloc();
    assert_eq!(rt; zeros(heap, 0)?, (0, 0));
    assert_eq!(rt; zeros(heap, 11)?, (1, 0));
    assert_eq!(rt; zeros(heap, 12)?, (0, 0));
    assert_eq!(rt; zeros(heap, 65531)?, (1, 0));
    assert_eq!(rt; zeros(heap, 65532)?, (0, 0));
    assert_eq!(rt; zeros(heap, 65533)?, (4, 0));
    assert_eq!(rt; zeros(heap, 65544)?, (4, 0));
    Ok(())
}

fn registered(heap: Global, records: &[[u32; 3]]) -> Result<(u32, usize), Fail> {
    told(open_register(heap, bytes(heap, records)?))
}

#[test]
fn registers(rt: HostRuntime) -> Result<(), Fail> {
    let heap = rt.alloc();
    assert_eq!(rt; registered(heap, &[[2047, 63, 0]])?, (0, 0));
    assert_eq!(rt; registered(heap, &[[2048, 63, 0]])?, (2, 0));
    assert_eq!(rt; registered(heap, &[[4294967295, 0, 0]])?, (2, 0));
    assert_eq!(rt; registered(heap, &[[0, 64, 0]])?, (3, 0));
    assert_eq!(rt; registered(heap, &[[0, 0, 1], [0, 0, 1]])?, (7, 1));
    assert_eq!(rt;
        registered(heap, &[[0, 0, 1], [0, 1, 0], [0, 0, 9]])?,
        (7, 2)
    );
    let Ok(register) = open_register(heap, bytes(heap, &[[1, 4, 7], [3, 0, 7]])?) else {
        return Err(Fail::new("refused"));
    };
    assert_eq!(rt; (register.subjects(), register.properties()), (4, 5));
    Ok(())
}

fn one_property(heap: Global) -> Result<RegisterFile, Fail> {
    match open_register(heap, bytes(heap, &[[0, 0, 1]])?) {
        Ok(register) => Ok(register),
        Err(_) => Err(Fail::new("refused")),
    }
}

// Over tables of one property each: the refusal of the draft, or how many equal and share conditions it has.
fn drafted(rt: &impl Abort, heap: Global, conditions: &[[u32; 3]]) -> Result<(u32, usize), Fail> {
    let file = bytes(heap, conditions)?;
    let left = one_property(heap)?;
    let right = one_property(heap)?;
    match open_draft(heap, left, right, file.as_slice()) {
        Ok(draft) => {
            let equal = count_kind(draft.comparisons(), Kind::Equal);
            let share = count_kind(draft.comparisons(), Kind::Share);
            let (_, _) = draft.into_tables();
            assert!(rt; equal < 10 && share < 10);
            Ok((0, equal * 10 + share))
        }
        Err(OpenError::Fault(fault)) => Ok((fault.number(), fault.place())),
        Err(OpenError::NoMemory) => Err(Fail::new("no memory")),
    }
}

#[test]
fn drafts(rt: HostRuntime) -> Result<(), Fail> {
    let heap = rt.alloc();
    assert_eq!(rt; drafted(&rt, heap, &[])?, (0, 0));
    assert_eq!(rt; drafted(&rt, heap, &[[1, 0, 0]])?, (0, 1));
    assert_eq!(rt; drafted(&rt, heap, &[[0, 0, 0], [1, 0, 0]])?, (0, 11));
    assert_eq!(rt; drafted(&rt, heap, &[[0, 0, 0], [2, 9, 9]])?, (30, 1));
    assert_eq!(rt; drafted(&rt, heap, &[[0, 1, 1], [2, 9, 9]])?, (15, 0));
    assert_eq!(rt; drafted(&rt, heap, &[[0, 0, 0], [1, 0, 1]])?, (16, 1));
    assert_eq!(rt;
        drafted(&rt, heap, &[[0, 0, 0], [1, 0, 0], [0, 0, 0]])?,
        (17, 2)
    );
    Ok(())
}

#[test]
fn lines(rt: HostRuntime) -> Result<(), Fail> {
    let heap = rt.alloc();
    let line = register_line(heap, Source::Right, 2048, 0)?;
    assert_eq!(rt;
        line.as_str(),
        "read 2048 subjects and 0 properties of right\n"
    );
    let line = draft_line(heap, 10, 54)?;
    assert_eq!(rt;
        line.as_str(),
        "read 10 equal and 54 share conditions of draft\n"
    );
    let candidate = Candidate {
        code: 18446744073709551615,
        links: 4194304,
        left_linked: 2048,
        right_linked: 1,
        left_present: 7,
        right_present: 8,
        conditions: 64,
    };
    let line = candidate_line(heap, &candidate)?;
    assert_eq!(rt; line.as_str(), "18446744073709551615 4194304 2048 1\n");
    let line = end_line(heap, 0)?;
    assert_eq!(rt; line.as_str(), "end 0\n");
    let line = fault_line(heap, Source::Left, &FileFault::TooLong)?;
    assert_eq!(rt; line.as_str(), "fault left 4 0\n");
    let line = fault_line(heap, Source::Draft, &FileFault::Ragged)?;
    assert_eq!(rt; line.as_str(), "fault draft 1 0\n");
    Ok(())
}

#[test]
fn what_was_opened_is_gone_on_with(rt: HostRuntime) -> Result<(), Fail> {
    assert_eq!(rt; accepted(&rt, Source::Left, Ok(5))?, Some(5));
    let refused: Result<u32, OpenError> = Err(OpenError::Fault(FileFault::Ragged));
    assert_eq!(rt; accepted(&rt, Source::Draft, refused)?, None);
    let starved: Result<u32, OpenError> = Err(OpenError::NoMemory);
    assert!(rt; accepted(&rt, Source::Right, starved).is_err());
    Ok(())
}
