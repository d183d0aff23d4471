// The small registers by a script with every refusal in it, and tables that differ only where nobody looks.
use crate::alike::{BothAnswered, BothUnanswered, run_alike};
use crate::over_tables::run_over_tables;
use drafts::{Draft, Undrafted};
use listings::{Answer, Answered, Call, Taken, Unanswered};
use records::{Candidate, Condition, Fault, Link, read};
use std::alloc::Global;
use std::process::Abort;
use std::test::Fail;
use tables::RegisterFile;

const LEFT: [[u32; 3]; 7] = [
    [0, 0, 1],
    [0, 1, 10],
    [0, 1, 11],
    [1, 0, 1],
    [1, 0, 2],
    [1, 1, 10],
    [2, 1, 12],
];

const RIGHT: [[u32; 3]; 8] = [
    [0, 0, 1],
    [0, 1, 10],
    [1, 0, 1],
    [1, 0, 2],
    [1, 1, 10],
    [1, 1, 11],
    [2, 0, 3],
    [2, 1, 12],
];

// The right register with a third property, which no condition names.
const RIGHT_AND_MORE: [[u32; 3]; 9] = [
    [0, 0, 1],
    [0, 1, 10],
    [0, 2, 7],
    [1, 0, 1],
    [1, 0, 2],
    [1, 1, 10],
    [1, 1, 11],
    [2, 0, 3],
    [2, 1, 12],
];

// A call: its number, and how many bytes its buffer has.
#[derive(Clone, Copy)]
enum Asked {
    Take(usize, usize),
    Page(usize, usize),
    Tally,
    Total,
}

// An answer in short: of a record its code and links, of a page how many links it has and the right subject of the last, of a refusal its number.
#[derive(Clone, Copy, PartialEq, Eq, Debug)]
enum Told {
    Handed(u64, u32),
    Ended,
    Paged(usize, u32),
    Refused(u32),
    Tallied(u64, u64, bool),
    Totalled(u64),
}

// The calls and their answers.
const SCRIPT: [(Asked, Told); 20] = [
    (Asked::Total, Told::Refused(28)),
    (Asked::Page(0, 8), Told::Refused(25)),
    (Asked::Take(0, 31), Told::Refused(24)),
    (Asked::Take(usize::MAX, 64), Told::Refused(24)),
    (Asked::Tally, Told::Tallied(0, 0, false)),
    (Asked::Take(0, 32), Told::Handed(1, 5)),
    (Asked::Page(6, 64), Told::Refused(26)),
    (Asked::Page(usize::MAX, 64), Told::Refused(26)),
    (Asked::Page(4, 7), Told::Refused(27)),
    (Asked::Page(5, 0), Told::Paged(0, 0)),
    (Asked::Page(2, 20), Told::Paged(2, 1)),
    (Asked::Page(0, 64), Told::Paged(5, 2)),
    (Asked::Take(0, 40), Told::Handed(3, 3)),
    (Asked::Take(0, 32), Told::Handed(65, 4)),
    (Asked::Take(0, 32), Told::Handed(67, 2)),
    (Asked::Take(0, 32), Told::Handed(193, 2)),
    (Asked::Total, Told::Refused(28)),
    (Asked::Take(0, 32), Told::Ended),
    (Asked::Tally, Told::Tallied(5, 193, true)),
    (Asked::Total, Told::Totalled(5)),
];

fn register(heap: Global, triples: &[[u32; 3]], properties: usize) -> Result<RegisterFile, Fail> {
    let mut bytes = Vec::new(heap);
    for triple in triples {
        for field in triple {
            for byte in field.to_le_bytes() {
                bytes.push(byte)?;
            }
        }
    }
    match RegisterFile::new(bytes, 3, properties) {
        Ok(file) => Ok(file),
        Err(_) => Err(Fail::new("the register was refused")),
    }
}

// Adds equal and then share for each pair of the first two properties.
fn add_all(draft: &mut Draft<RegisterFile, RegisterFile>) -> bool {
    let mut added = true;
    for i in 0..8u32 {
        let condition = Condition {
            kind: i % 2,
            left: i / 4,
            right: i / 2 % 2,
        };
        added = draft.add(condition).is_ok() && added;
    }
    added
}

fn draft(
    heap: Global,
    right: &[[u32; 3]],
    properties: usize,
) -> Result<Draft<RegisterFile, RegisterFile>, Fail> {
    let left = register(heap, &LEFT, 2)?;
    let right = register(heap, right, properties)?;
    match Draft::new(heap, left, right) {
        Ok(mut draft) => {
            if add_all(&mut draft) {
                return Ok(draft);
            }
            let (_, _) = draft.into_tables();
            Err(Fail::new("a condition was refused"))
        }
        Err(undrafted) => {
            let Undrafted { left: _, right: _ } = undrafted;
            Err(Fail::new("no memory"))
        }
    }
}

fn script(heap: Global) -> Result<Vec<Call>, Fail> {
    let mut calls = Vec::new(heap);
    for (asked, _) in SCRIPT {
        let call = match asked {
            Asked::Take(at, len) => Call::Take {
                at,
                buffer: vec![in heap; 9; len]?,
            },
            Asked::Page(from, len) => Call::Page {
                from,
                buffer: vec![in heap; 9; len]?,
            },
            Asked::Tally => Call::Tally,
            Asked::Total => Call::Total,
        };
        calls.push(call)?;
    }
    Ok(calls)
}

// The right subject of the last link on a page, 0 on an empty one.
fn last_right(count: usize, buffer: &[u8]) -> Result<u32, Fail> {
    if count == 0 {
        return Ok(0);
    }
    let link = read::<Link>(buffer, count - 1)?;
    Ok(link.right)
}

fn tell(answer: &Answer) -> Result<Told, Fail> {
    match answer {
        Answer::Took { taken, buffer } => match taken {
            Ok(Taken::Handed) => {
                let candidate = read::<Candidate>(buffer.as_slice(), 0)?;
                Ok(Told::Handed(candidate.code, candidate.links))
            }
            Ok(Taken::Ended) => Ok(Told::Ended),
            Err(fault) => Ok(Told::Refused(fault.number())),
        },
        Answer::Paged { count, buffer } => match count {
            Ok(count) => {
                let right = last_right(*count, buffer.as_slice())?;
                Ok(Told::Paged(*count, right))
            }
            Err(fault) => Ok(Told::Refused(fault.number())),
        },
        Answer::Tallied(tally) => Ok(Told::Tallied(tally.handed, tally.last, tally.ended)),
        Answer::Totalled(total) => match total {
            Ok(total) => Ok(Told::Totalled(*total)),
            Err(fault) => Ok(Told::Refused(fault.number())),
        },
    }
}

fn as_expected(rt: &impl Abort, answers: &[Answer]) -> Result<(), Fail> {
    assert_eq!(rt; answers.len(), SCRIPT.len());
    for (answer, (_, told)) in answers.iter().zip(SCRIPT) {
        assert_eq!(rt; tell(answer)?, told);
    }
    Ok(())
}

#[test]
fn small_registers_answer_a_script(rt: HostRuntime) -> Result<(), Fail> {
    let heap = rt.alloc();
    let calls = script(heap)?;
    match run_over_tables(heap, draft(heap, &RIGHT, 2)?, calls) {
        Ok(
            Answered {
                context: (_, _),
                answers,
            },
        ) => as_expected(&rt, answers.as_slice()),
        Err(
            Unanswered {
                context: (_, _),
                calls: _,
            },
        ) => Err(Fail::new("no memory")),
    }
}

#[test]
fn alike_tables_answer_alike(rt: HostRuntime) -> Result<(), Fail> {
    let heap = rt.alloc();
    let calls = script(heap)?;
    let one = draft(heap, &RIGHT, 2)?;
    let other = match draft(heap, &RIGHT_AND_MORE, 3) {
        Ok(other) => other,
        Err(fail) => {
            let (_, _) = one.into_tables();
            return Err(fail);
        }
    };
    match run_alike(heap, one, other, calls) {
        Ok(BothAnswered { one, other }) => {
            let Answered {
                context: (_, _),
                answers: first,
            } = one;
            let Answered {
                context: (_, _),
                answers: second,
            } = other;
            as_expected(&rt, first.as_slice())?;
            as_expected(&rt, second.as_slice())
        }
        Err(
            BothUnanswered {
                one: (_, _),
                other: (_, _),
                calls: _,
            },
        ) => Err(Fail::new("no memory")),
    }
}
