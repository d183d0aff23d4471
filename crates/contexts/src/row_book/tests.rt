// Row books at both edges of every refusal, and the questions to one.
use super::{BookFault, RowBook};
use crate::coded_pair::CodedPair;
use crate::context::Context;
use records::Fault;
use std::alloc::Global;
use std::process::Abort;
use std::test::Fail;

// Two left and two right subjects, the second right one absent, and three conditions.
const WORDS: [u64; 8] = [1, 1, 1, 0, 5, 0, 7, 0];

// Whether the words open, or why not; refused words come back as they were.
fn outcome(
    rt: &impl Abort,
    heap: Global,
    words: &[u64],
    lefts: usize,
    rights: usize,
    conditions: usize,
) -> Result<Option<BookFault>, Fail> {
    match RowBook::open(words.to_vec(heap)?, lefts, rights, conditions) {
        Ok(book) => {
            assert_eq!(rt; book.into_words().as_slice(), words);
            Ok(None)
        }
        Err(refusal) => {
            assert_eq!(rt; refusal.words.as_slice(), words);
            Ok(Some(refusal.fault))
        }
    }
}

#[test]
fn refusals_at_both_edges(rt: HostRuntime) -> Result<(), Fail> {
    let heap = rt.alloc();
    assert_eq!(rt; outcome(&rt, heap, &WORDS, 2, 2, 3)?, None);
    assert_eq!(rt; outcome(&rt, heap, &WORDS, 2, 2, 64)?, None);
    assert_eq!(rt;
        outcome(&rt, heap, &WORDS, 2, 2, 65)?,
        Some(BookFault::TooLarge)
    );
    assert_eq!(rt; outcome(&rt, heap, &[1; 2048], 2048, 0, 0)?, None);
    assert_eq!(rt; outcome(&rt, heap, &[1; 2048], 0, 2048, 0)?, None);
    assert_eq!(rt;
        outcome(&rt, heap, &[1; 2049], 2049, 0, 0)?,
        Some(BookFault::TooLarge)
    );
    assert_eq!(rt;
        outcome(&rt, heap, &[1; 2049], 0, usize::MAX, 0)?,
        Some(BookFault::TooLarge)
    );
    assert_eq!(rt;
        outcome(&rt, heap, &WORDS[0..7], 2, 2, 3)?,
        Some(BookFault::WrongLength)
    );
    assert_eq!(rt;
        outcome(&rt, heap, &[0; 9], 2, 2, 3)?,
        Some(BookFault::WrongLength)
    );
    assert_eq!(rt; outcome(&rt, heap, &[], 0, 0, 0)?, None);
    // Presence words come before codes, and the least place is told.
    assert_eq!(rt;
        outcome(&rt, heap, &[2, 1, 2, 0, 9, 0, 7, 0], 2, 2, 3)?,
        Some(BookFault::UnknownPresence { word: 0 })
    );
    assert_eq!(rt;
        outcome(&rt, heap, &[1, 1, 1, 2, 9, 0, 7, 0], 2, 2, 3)?,
        Some(BookFault::UnknownPresence { word: 3 })
    );
    // A code is below 2^k, and 0 where either subject is absent.
    assert_eq!(rt;
        outcome(&rt, heap, &WORDS, 2, 2, 2)?,
        Some(BookFault::WrongCode { word: 4 })
    );
    assert_eq!(rt;
        outcome(&rt, heap, &[1, 1, 1, 0, 5, 0, 8, 0], 2, 2, 3)?,
        Some(BookFault::WrongCode { word: 6 })
    );
    assert_eq!(rt;
        outcome(&rt, heap, &[1, 1, 1, 0, 5, 0, 7, 1], 2, 2, 3)?,
        Some(BookFault::WrongCode { word: 7 })
    );
    assert_eq!(rt;
        outcome(&rt, heap, &[0, 1, 1, 0, 5, 0, 7, 0], 2, 2, 3)?,
        Some(BookFault::WrongCode { word: 4 })
    );
    Ok(())
}

#[test]
fn questions(rt: HostRuntime) -> Result<(), Fail> {
    let Ok(book) = RowBook::open(WORDS.to_vec(rt.alloc())?, 2, 2, 3) else {
        return Err(Fail::new("refused"));
    };
    assert_eq!(rt; (book.lefts(), book.rights(), book.conditions()), (2, 2, 3));
    for (s, present) in [(0, true), (1, true), (2, false), (usize::MAX, false)] {
        assert_eq!(rt; book.left_present(s), present);
    }
    for (t, present) in [(0, true), (1, false), (2, false), (usize::MAX, false)] {
        assert_eq!(rt; book.right_present(t), present);
    }
    for (s, t, code) in [
        (0, 0, 5),
        (0, 1, 0),
        (1, 0, 7),
        (1, 1, 0),
        (0, 2, 0),
        (2, 0, 0),
        (usize::MAX, usize::MAX, 0),
    ] {
        assert_eq!(rt; book.code(s, t), code);
    }
    let pairs = book.coded_pairs(rt.alloc())?;
    assert!(rt;
        pairs.as_slice()
            == [
                CodedPair {
                    left: 0,
                    right: 0,
                    code: 5,
                },
                CodedPair {
                    left: 1,
                    right: 0,
                    code: 7,
                },
            ]
            .as_slice()
    );
    let fault = BookFault::WrongCode { word: 7 };
    assert_eq!(rt; (fault.number(), fault.place()), (23, 7));
    let fault = BookFault::UnknownPresence { word: 1 };
    assert_eq!(rt; (fault.number(), fault.place()), (22, 1));
    assert_eq!(rt;
        (
            BookFault::TooLarge.number(),
            BookFault::WrongLength.number(),
        ),
        (20, 21)
    );
    Ok(())
}
