use super::RegisterFile;
use crate::table::Table;
use records::Fault;
use std::alloc::{AllocError, Global};
use std::process::Abort;
use std::test::Fail;

const REGISTER: [[u32; 3]; 7] = [
    [0, 0, 1],
    [0, 1, 10],
    [0, 1, 11],
    [1, 0, 1],
    [1, 0, 2],
    [1, 1, 10],
    [2, 1, 12],
];

// The bytes of some triples.
fn written(heap: Global, triples: &[[u32; 3]]) -> Result<Vec<u8>, AllocError> {
    let mut bytes = Vec::new(heap);
    for triple in triples {
        for field in triple {
            for byte in field.to_le_bytes() {
                bytes.push(byte)?;
            }
        }
    }
    Ok(bytes)
}

// The bytes of many triples of one subject and property, ascending.
fn written_many(heap: Global, count: u32) -> Result<Vec<u8>, AllocError> {
    let mut bytes = Vec::new(heap);
    for value in 0..count {
        for field in [0, 0, value] {
            for byte in field.to_le_bytes() {
                bytes.push(byte)?;
            }
        }
    }
    Ok(bytes)
}

// The bytes make a register file, and come back from it.
fn makes(
    rt: &impl Abort,
    heap: Global,
    bytes: &[u8],
    subjects: usize,
    properties: usize,
) -> Result<(), Fail> {
    match RegisterFile::new(bytes.to_vec(heap)?, subjects, properties) {
        Ok(file) => {
            assert!(rt; file.into_bytes().as_slice() == bytes);
            Ok(())
        },
        Err(refusal) => {
            assert_eq!(rt; refusal.fault.number(), 0);
            Ok(())
        },
    }
}

// The bytes are refused with this number and place, and come back.
fn refuses(
    rt: &impl Abort,
    heap: Global,
    bytes: &[u8],
    subjects: usize,
    properties: usize,
    number: u32,
    place: usize,
) -> Result<(), Fail> {
    match RegisterFile::new(bytes.to_vec(heap)?, subjects, properties) {
        Ok(_) => Err(Fail::new("nothing was refused")),
        Err(refusal) => {
            assert_eq!(rt; refusal.fault.number(), number);
            assert_eq!(rt; refusal.fault.place(), place);
            assert!(rt; refusal.bytes.as_slice() == bytes);
            Ok(())
        }
    }
}

#[test]
fn whole_files_are_asked_first(rt: HostRuntime) -> Result<(), Fail> {
    let heap = rt.alloc();
    let bytes = written(heap, &REGISTER)?;
    makes(&rt, heap, bytes.as_slice(), 3, 2)?;
    makes(&rt, heap, &[], 0, 0)?;
    refuses(&rt, heap, &[0; 11], 2049, 65, 1, 0)?;
    refuses(&rt, heap, &[0; 13], 1, 1, 1, 0)?;
    makes(&rt, heap, bytes.as_slice(), 2048, 64)?;
    refuses(&rt, heap, bytes.as_slice(), 2049, 65, 2, 0)?;
    refuses(&rt, heap, bytes.as_slice(), 2048, 65, 3, 0)?;
    let most = written_many(heap, 65536)?;
    makes(&rt, heap, most.as_slice(), 1, 1)?;
    let more = written_many(heap, 65537)?;
    refuses(&rt, heap, more.as_slice(), 0, 0, 4, 0)
}

#[test]
fn records_are_asked_in_turn(rt: HostRuntime) -> Result<(), Fail> {
    let heap = rt.alloc();
    let bytes = written(heap, &REGISTER)?;
    refuses(&rt, heap, bytes.as_slice(), 2, 2, 5, 6)?;
    refuses(&rt, heap, bytes.as_slice(), 3, 1, 6, 1)?;
    refuses(&rt, heap, bytes.as_slice(), 0, 0, 5, 0)?;
    let largest = written(heap, &[[0, 0, 4294967295], [0, 1, 0], [1, 0, 0]])?;
    makes(&rt, heap, largest.as_slice(), 2, 2)?;
    let twice = written(heap, &[[0, 0, 1], [1, 0, 7], [1, 0, 7]])?;
    refuses(&rt, heap, twice.as_slice(), 2, 1, 7, 2)?;
    let values_fall = written(heap, &[[0, 0, 2], [0, 0, 1]])?;
    refuses(&rt, heap, values_fall.as_slice(), 1, 1, 7, 1)?;
    let properties_fall = written(heap, &[[0, 1, 1], [0, 0, 2]])?;
    refuses(&rt, heap, properties_fall.as_slice(), 1, 2, 7, 1)?;
    let subjects_fall = written(heap, &[[1, 0, 1], [0, 1, 2]])?;
    refuses(&rt, heap, subjects_fall.as_slice(), 2, 2, 7, 1)
}

#[test]
fn questions_are_answered(rt: HostRuntime) -> Result<(), Fail> {
    let heap = rt.alloc();
    let bytes = written(heap, &REGISTER)?;
    let Ok(file) = RegisterFile::new(bytes, 3, 2) else {
        return Err(Fail::new("the register was refused"));
    };
    assert!(rt; file.subjects() == 3 && file.properties() == 2);
    assert!(rt; file.is_present(2) && !file.is_present(3));
    assert_eq!(rt; file.count(0, 1), 2);
    assert_eq!(rt; file.value(0, 1, 0), Some(10));
    assert_eq!(rt; file.value(0, 1, 1), Some(11));
    assert_eq!(rt; file.value(0, 1, 2), None);
    assert_eq!(rt; file.value(1, 0, 1), Some(2));
    assert_eq!(rt; file.count(2, 0), 0);
    assert_eq!(rt; file.value(2, 0, 0), None);
    assert_eq!(rt; file.value(2, 1, 0), Some(12));
    assert!(rt; file.count(3, 0) == 0 && file.count(0, 2) == 0 && file.count(0, 64) == 0);
    assert_eq!(rt;
        file.value(18446744073709551615, 18446744073709551615, 0),
        None
    );
    Ok(())
}
