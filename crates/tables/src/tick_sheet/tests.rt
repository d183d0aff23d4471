use super::TickSheet;
use crate::table::Table;
use records::Fault;
use std::alloc::Global;
use std::process::Abort;
use std::test::Fail;

// Subject 0 is absent, 1 has values 0 and 63 at property 0 and none at 1, 2 has 1 to 3 at property 1.
const SHEET: [u64; 9] = [0, 0, 0, 1, 9223372036854775809, 0, 1, 0, 14];

// The words make a tick sheet, and come back from it.
fn makes(
    rt: &impl Abort,
    heap: Global,
    words: &[u64],
    subjects: usize,
    properties: usize,
) -> Result<(), Fail> {
    match TickSheet::new(words.to_vec(heap)?, subjects, properties) {
        Ok(sheet) => {
            assert!(rt; sheet.into_words().as_slice() == words);
            Ok(())
        },
        Err(refusal) => {
            assert_eq!(rt; refusal.fault.number(), 0);
            Ok(())
        },
    }
}

// The words are refused with this number and place, and come back.
fn refuses(
    rt: &impl Abort,
    heap: Global,
    words: &[u64],
    subjects: usize,
    properties: usize,
    number: u32,
    place: usize,
) -> Result<(), Fail> {
    match TickSheet::new(words.to_vec(heap)?, subjects, properties) {
        Ok(_) => Err(Fail::new("nothing was refused")),
        Err(refusal) => {
            assert_eq!(rt; refusal.fault.number(), number);
            assert_eq!(rt; refusal.fault.place(), place);
            assert!(rt; refusal.words.as_slice() == words);
            Ok(())
        }
    }
}

#[test]
fn sheets_are_asked_in_turn(rt: HostRuntime) -> Result<(), Fail> {
    let heap = rt.alloc();
    makes(&rt, heap, &SHEET, 3, 2)?;
    makes(&rt, heap, &[], 0, 0)?;
    makes(&rt, heap, &[0; 2048], 2048, 0)?;
    refuses(&rt, heap, &[0; 2049], 2049, 65, 2, 0)?;
    makes(&rt, heap, &[1; 65], 1, 64)?;
    refuses(&rt, heap, &[1; 66], 1, 65, 3, 0)?;
    refuses(&rt, heap, &SHEET[0..8], 3, 2, 8, 0)?;
    refuses(&rt, heap, &[1; 10], 3, 2, 8, 0)?;
    makes(&rt, heap, &[0, 0, 1, 5], 2, 1)?;
    refuses(&rt, heap, &[0, 0, 2, 5], 2, 1, 9, 1)?;
    refuses(&rt, heap, &[2, 0, 2, 5], 2, 1, 9, 0)?;
    refuses(&rt, heap, &[1, 5, 0, 1], 2, 1, 10, 1)?;
    refuses(
        &rt,
        heap,
        &[0, 0, 9223372036854775808, 1, 0, 0],
        2,
        2,
        10,
        0,
    )
}

#[test]
fn questions_are_answered(rt: HostRuntime) -> Result<(), Fail> {
    let words = SHEET.to_vec(rt.alloc())?;
    let Ok(sheet) = TickSheet::new(words, 3, 2) else {
        return Err(Fail::new("the sheet was refused"));
    };
    assert!(rt; sheet.subjects() == 3 && sheet.properties() == 2);
    assert!(rt; !sheet.is_present(0) && sheet.is_present(2) && !sheet.is_present(3));
    assert_eq!(rt; sheet.count(0, 0), 0);
    assert_eq!(rt; sheet.count(1, 0), 2);
    assert_eq!(rt; sheet.value(1, 0, 0), Some(0));
    assert_eq!(rt; sheet.value(1, 0, 1), Some(63));
    assert_eq!(rt; sheet.value(1, 0, 2), None);
    assert_eq!(rt; sheet.value(1, 1, 0), None);
    assert_eq!(rt; sheet.count(2, 1), 3);
    assert_eq!(rt; sheet.value(2, 1, 2), Some(3));
    assert!(rt; sheet.count(2, 2) == 0 && sheet.count(3, 0) == 0);
    assert_eq!(rt;
        sheet.value(18446744073709551615, 18446744073709551615, 0),
        None
    );
    Ok(())
}
