// Two small registers, compared and frozen, and the questions that a draft asks.
use crate::draft::{Draft, DraftFault, Live, Undrafted};
use contexts::{CodedPair, Context};
use records::{Condition, Fault};
use std::alloc::Global;
use std::process::Abort;
use std::test::Fail;
use tables::{RegisterFile, Table};

const LEFT: [[u32; 3]; 7] = [
    [0, 0, 1],
    [0, 1, 10],
    [0, 1, 11],
    [1, 0, 1],
    [1, 0, 2],
    [1, 1, 10],
    [2, 1, 12],
];

const RIGHT: [[u32; 3]; 8] = [
    [0, 0, 1],
    [0, 1, 10],
    [1, 0, 1],
    [1, 0, 2],
    [1, 1, 10],
    [1, 1, 11],
    [2, 0, 3],
    [2, 1, 12],
];

fn register(
    heap: Global,
    triples: &[[u32; 3]],
    subjects: usize,
    properties: usize,
) -> Result<RegisterFile, Fail> {
    let mut bytes = Vec::new(heap);
    for triple in triples {
        for field in triple {
            for byte in field.to_le_bytes() {
                bytes.push(byte)?;
            }
        }
    }
    match RegisterFile::new(bytes, subjects, properties) {
        Ok(file) => Ok(file),
        Err(_) => Err(Fail::new("the register was refused")),
    }
}

fn draft(
    heap: Global,
    left: RegisterFile,
    right: RegisterFile,
) -> Result<Draft<RegisterFile, RegisterFile>, Fail> {
    match Draft::new(heap, left, right) {
        Ok(draft) => Ok(draft),
        Err(tables) => {
            let Undrafted { left: _, right: _ } = tables;
            Err(Fail::new("no memory for a draft"))
        }
    }
}

// Adds equal and then share for each pair of properties below `most`, until one is refused.
fn add_all(draft: &mut Draft<RegisterFile, RegisterFile>, most: u32) -> Result<(), DraftFault> {
    for left in 0..most {
        for right in 0..most {
            for kind in 0..2 {
                draft.add(Condition { kind, left, right })?;
            }
        }
    }
    Ok(())
}

fn freezes(rt: &impl Abort, draft: &Draft<RegisterFile, RegisterFile>) -> Result<(), Fail> {
    let mut short = [9; 14];
    match draft.freeze(&mut short) {
        Ok(()) => return Err(Fail::new("the words were too few")),
        Err(fault) => assert!(rt; fault.number() == 19 && fault.place() == 0),
    }
    assert!(rt; short == [9; 14]);
    let mut words = [9; 16];
    assert!(rt; draft.freeze(&mut words).is_ok());
    assert!(rt; words == [1, 1, 1, 1, 1, 1, 193, 67, 0, 67, 193, 0, 0, 0, 3, 9]);
    Ok(())
}

const fn pair(left: u32, right: u32, code: u64) -> CodedPair {
    CodedPair { left, right, code }
}

fn lists_pairs(
    rt: &impl Abort,
    heap: Global,
    live: &Live<RegisterFile, RegisterFile>,
) -> Result<(), Fail> {
    let expected = [
        pair(0, 0, 193),
        pair(0, 1, 67),
        pair(1, 0, 67),
        pair(1, 1, 193),
        pair(2, 2, 3),
    ];
    assert!(rt; live.coded_pairs(heap)?.as_slice() == expected.as_slice());
    Ok(())
}

fn answers(
    rt: &impl Abort,
    heap: Global,
    live: &Live<RegisterFile, RegisterFile>,
) -> Result<(), Fail> {
    assert!(rt; live.lefts() == 3 && live.rights() == 3 && live.conditions() == 8);
    assert!(rt; live.left_present(2) && !live.left_present(3) && live.right_present(0));
    assert_eq!(rt; live.code(0, 0), 193);
    assert_eq!(rt; live.code(0, 1), 67);
    assert_eq!(rt; live.code(2, 2), 3);
    assert_eq!(rt; live.code(2, 1), 0);
    assert_eq!(rt; live.code(3, 0), 0);
    lists_pairs(rt, heap, live)
}

#[test]
fn small_registers_are_compared(rt: HostRuntime) -> Result<(), Fail> {
    let heap = rt.alloc();
    let left = register(heap, &LEFT, 3, 2)?;
    let right = register(heap, &RIGHT, 3, 2)?;
    let mut draft = draft(heap, left, right)?;
    let added = add_all(&mut draft, 2);
    let live = draft.start();
    let answered = answers(&rt, heap, &live);
    let (left, right) = live.into_tables();
    answered?;
    assert_eq!(rt; added, Ok(()));
    assert!(rt; left.count(0, 1) == 2 && right.count(1, 1) == 2);
    Ok(())
}

#[test]
fn small_registers_are_frozen(rt: HostRuntime) -> Result<(), Fail> {
    let heap = rt.alloc();
    let left = register(heap, &LEFT, 3, 2)?;
    let right = register(heap, &RIGHT, 3, 2)?;
    let mut draft = draft(heap, left, right)?;
    let added = add_all(&mut draft, 2);
    let frozen = freezes(&rt, &draft);
    let (_, _) = draft.into_tables();
    frozen?;
    assert_eq!(rt; added, Ok(()));
    Ok(())
}

fn asks_in_order(
    rt: &impl Abort,
    draft: &mut Draft<RegisterFile, RegisterFile>,
) -> Result<(), Fail> {
    assert_eq!(rt;
        draft.add(Condition {
            kind: 2,
            left: 6,
            right: 6,
        }),
        Err(DraftFault::UnknownKind)
    );
    assert_eq!(rt;
        draft.add(Condition {
            kind: 0,
            left: 6,
            right: 6,
        }),
        Err(DraftFault::UnknownLeft)
    );
    assert_eq!(rt;
        draft.add(Condition {
            kind: 0,
            left: 5,
            right: 6,
        }),
        Err(DraftFault::UnknownRight)
    );
    assert_eq!(rt; draft.comparisons().len(), 0);
    // 72 comparisons can be told apart: the 65th of them is one too many.
    assert_eq!(rt; add_all(draft, 6), Err(DraftFault::Full));
    assert_eq!(rt; draft.comparisons().len(), 64);
    assert_eq!(rt;
        draft.add(Condition {
            kind: 1,
            left: 5,
            right: 5,
        }),
        Err(DraftFault::Full)
    );
    assert_eq!(rt;
        draft.add(Condition {
            kind: 1,
            left: 0,
            right: 5,
        }),
        Err(DraftFault::Repeated)
    );
    assert_eq!(rt;
        draft.add(Condition {
            kind: 1,
            left: 4294967295,
            right: 0,
        }),
        Err(DraftFault::UnknownLeft)
    );
    Ok(())
}

#[test]
fn conditions_are_asked_in_order(rt: HostRuntime) -> Result<(), Fail> {
    let heap = rt.alloc();
    let left = register(heap, &[], 0, 6)?;
    let right = register(heap, &[], 0, 6)?;
    let mut draft = draft(heap, left, right)?;
    let asked = asks_in_order(&rt, &mut draft);
    let (_, _) = draft.into_tables();
    asked
}

#[test]
fn refusals_are_told(rt: HostRuntime) {
    assert_eq!(rt; DraftFault::UnknownKind.number(), 30);
    assert_eq!(rt; DraftFault::UnknownLeft.number(), 15);
    assert_eq!(rt; DraftFault::UnknownRight.number(), 16);
    assert_eq!(rt; DraftFault::Repeated.number(), 17);
    assert_eq!(rt; DraftFault::Full.number(), 18);
    assert_eq!(rt; DraftFault::Full.place(), 0);
}
