// Each kind at both edges of its bounds, the bytes of each, and what a refusal leaves.
use crate::fault::*;
use crate::kinds::candidate::*;
use crate::kinds::condition::*;
use crate::kinds::link::*;
use crate::kinds::triple::*;
use crate::*;
use std::fmt::Debug;
use std::process::Abort;
use std::test::Fail;

const TRIPLE: Triple = Triple {
    subject: 0x04030201,
    property: 0x08070605,
    value: 0x0c0b0a09,
};

const LINK: Link = Link {
    left: 0x04030201,
    right: 0x08070605,
};

const CANDIDATE: Candidate = Candidate {
    code: 0x0807060504030201,
    links: 0x0c0b0a09,
    left_linked: 0x100f0e0d,
    right_linked: 0x14131211,
    left_present: 0x18171615,
    right_present: 0x1c1b1a19,
    conditions: 0x201f1e1d,
};

fn condition(kind: u32) -> Condition {
    Condition {
        kind,
        left: 0x08070605,
        right: 0x0c0b0a09,
    }
}

// Two records of K in `two`, whose length is just that: reading and writing at and past the last one.
fn edges<K: Record>(rt: &impl Abort, two: &mut [u8], body: &K) -> Result<(), Fail>
where
    K: PartialEq + Debug,
{
    let size = K::stride();
    assert_eq!(rt; two.len() / 2, size);
    assert_eq!(rt; write::<K>(two, size, body), Ok(()));
    assert!(rt; read::<K>(two, 1)? == *body);
    for i in [2, 3, usize::MAX / 2, usize::MAX] {
        assert!(rt; read::<K>(two, i).err() == Some(ReadFault::CutShort { record: i }));
    }
    for at in [size + 1, size + size, usize::MAX - size, usize::MAX] {
        assert_eq!(rt; write::<K>(two, at, body), Err(WriteFault::NoSpace));
    }
    assert!(rt; two.len() > 0);
    let cut = two.len() - 1;
    assert!(rt; read::<K>(&two[0..cut], 1).err() == Some(ReadFault::CutShort { record: 1 }));
    assert!(rt; read::<K>(&two[0..cut], 0).is_ok());
    Ok(())
}

#[test]
fn kinds_at_both_edges(rt: HostRuntime) -> Result<(), Fail> {
    edges::<Triple>(&rt, &mut [0; 24], &TRIPLE)?;
    edges::<Condition>(&rt, &mut [0; 24], &condition(1))?;
    edges::<Link>(&rt, &mut [0; 16], &LINK)?;
    edges::<Candidate>(&rt, &mut [0; 64], &CANDIDATE)
}

// The record of K between two bytes of 99: its bytes count up from 1, and the bytes around it stay.
fn layout<K: Record>(rt: &impl Abort, out: &mut [u8], body: &K) {
    assert!(rt; out.len() > 1);
    assert_eq!(rt; out.len() - 2, K::stride());
    out.fill(99);
    assert_eq!(rt; write::<K>(out, 1, body), Ok(()));
    for (i, byte) in out.iter().enumerate() {
        let expected = if i == 0 || i + 1 == out.len() { 99 } else { i };
        assert_eq!(rt; usize::from(*byte), expected);
    }
}

#[test]
fn fields_in_order_lowest_byte_first(rt: HostRuntime) {
    layout::<Triple>(&rt, &mut [0; 14], &TRIPLE);
    layout::<Link>(&rt, &mut [0; 10], &LINK);
    layout::<Candidate>(&rt, &mut [0; 34], &CANDIDATE);
    let mut out = [0; 12];
    assert_eq!(rt; write::<Condition>(&mut out, 0, &condition(1)), Ok(()));
    assert_eq!(rt; out, [1, 0, 0, 0, 5, 6, 7, 8, 9, 10, 11, 12]);
}

#[test]
fn refusals_leave_the_bytes(rt: HostRuntime) -> Result<(), Fail> {
    // A condition's kind is asked after its space.
    for (kind, known) in [(0, true), (1, true), (2, false), (4294967295, false)] {
        let mut out = [7; 13];
        assert_eq!(rt;
            write::<Condition>(&mut out, 2, &condition(kind)),
            Err(WriteFault::NoSpace)
        );
        assert_eq!(rt; out, [7; 13]);
        let answer = write::<Condition>(&mut out, 1, &condition(kind));
        if known {
            assert_eq!(rt; answer, Ok(()));
            assert_eq!(rt; read::<Condition>(&out[1..], 0), Ok(condition(kind)));
            assert_eq!(rt; u32::from(Kind::try_from(kind).ok().ok_or("kind")?), kind);
        } else {
            assert_eq!(rt; answer, Err(WriteFault::UnknownKind));
            assert_eq!(rt; out, [7; 13]);
            assert_eq!(rt; Kind::try_from(kind), Err(UnknownKind(kind)));
        }
    }
    // A candidate needs 32 bytes.
    let mut out = [7; 32];
    assert_eq!(rt;
        write::<Candidate>(&mut out[0..31], 0, &CANDIDATE),
        Err(WriteFault::NoSpace)
    );
    assert_eq!(rt; out, [7; 32]);
    assert_eq!(rt; write::<Candidate>(&mut out, 0, &CANDIDATE), Ok(()));
    // Reading tells the record, writing tells place 0.
    let unknown = read::<Condition>(&[2; 36], 2).err().ok_or("read")?;
    assert_eq!(rt; (unknown.number(), unknown.place()), (30, 2));
    let cut = read::<Condition>(&[2; 36], 3).err().ok_or("read")?;
    assert_eq!(rt; (cut.number(), cut.place()), (29, 3));
    assert_eq!(rt;
        (WriteFault::NoSpace.number(), WriteFault::NoSpace.place()),
        (24, 0)
    );
    assert_eq!(rt;
        (
            WriteFault::UnknownKind.number(),
            WriteFault::UnknownKind.place(),
        ),
        (30, 0)
    );
    Ok(())
}

#[test]
fn written_reads_back(rt: HostRuntime) {
    let mut out = [7; 24];
    assert_eq!(rt; reads_back::<Triple>(&mut out, 1, &TRIPLE), Ok(TRIPLE));
    assert_eq!(rt;
        out,
        [
            7, 7, 7, 7, 7, 7, 7, 7, 7, 7, 7, 7, 1, 2, 3, 4, 5, 6, 7, 8, 9, 10, 11, 12,
        ]
    );
    assert_eq!(rt;
        reads_back::<Triple>(&mut out, 2, &TRIPLE),
        Err(WriteFault::NoSpace)
    );
    assert_eq!(rt;
        reads_back::<Condition>(&mut out, 0, &condition(2)),
        Err(WriteFault::UnknownKind)
    );
}

#[test]
fn read_writes_back(rt: HostRuntime) {
    let bytes = [
        7, 0, 0, 0, 7, 7, 7, 7, 7, 7, 7, 7, 1, 2, 3, 4, 5, 6, 7, 8, 9, 10, 11, 12,
    ];
    let mut out = [9; 24];
    assert_eq!(rt; writes_back::<Triple>(&bytes, 1, &mut out), Ok(()));
    assert_eq!(rt;
        out,
        [
            9, 9, 9, 9, 9, 9, 9, 9, 9, 9, 9, 9, 1, 2, 3, 4, 5, 6, 7, 8, 9, 10, 11, 12,
        ]
    );
    let cut = TripFault::Reading(ReadFault::CutShort { record: 2 });
    assert_eq!(rt; writes_back::<Triple>(&bytes, 2, &mut out), Err(cut));
    assert_eq!(rt; (cut.number(), cut.place()), (29, 2));
    let unknown = TripFault::Reading(ReadFault::UnknownKind { record: 0 });
    assert_eq!(rt; writes_back::<Condition>(&bytes, 0, &mut out), Err(unknown));
    let unwritten = TripFault::Writing(WriteFault::NoSpace);
    assert_eq!(rt;
        writes_back::<Triple>(&bytes, 1, &mut [9; 23]),
        Err(unwritten)
    );
    assert_eq!(rt; (unwritten.number(), unwritten.place()), (24, 0));
}
