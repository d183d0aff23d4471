// Which entries a folding list takes, and what it makes of values.
use super::{FoldingFault, FoldingList};
use records::Fault;
use std::test::Fail;

#[test]
fn takes_64_entries(rt: HostRuntime) -> Result<(), Fail> {
    let mut list = FoldingList::new(rt.alloc())?;
    for n in 0..64u32 {
        assert_eq!(rt; list.add(n, 1000), Ok(()));
    }
    // A full list says so first, whatever else is wrong.
    assert_eq!(rt; list.add(64, 1000), Err(FoldingFault::Full));
    assert_eq!(rt; list.add(0, 0), Err(FoldingFault::Full));
    assert_eq!(rt; list.becomes(63), 1000);
    assert_eq!(rt; list.becomes(64), 64);
    Ok(())
}

#[test]
fn refuses_chains(rt: HostRuntime) -> Result<(), Fail> {
    let mut list = FoldingList::new(rt.alloc())?;
    assert_eq!(rt; list.add(5, 5), Err(FoldingFault::Chained));
    assert_eq!(rt; list.add(5, 9), Ok(()));
    // Not above is asked before chains.
    assert_eq!(rt; list.add(5, 5), Err(FoldingFault::NotAbove));
    assert_eq!(rt; list.add(4, 5), Err(FoldingFault::NotAbove));
    assert_eq!(rt; list.add(6, 5), Err(FoldingFault::Chained));
    assert_eq!(rt; list.add(9, 1), Err(FoldingFault::Chained));
    assert_eq!(rt; list.add(10, 9), Ok(()));
    assert_eq!(rt; list.add(4294967295, 0), Ok(()));
    assert_eq!(rt; list.becomes(5), 9);
    assert_eq!(rt; list.becomes(9), 9);
    assert_eq!(rt; list.becomes(6), 6);
    assert_eq!(rt; list.becomes(4294967295), 0);
    Ok(())
}

#[test]
fn tells_its_refusals(rt: HostRuntime) {
    assert_eq!(rt; FoldingFault::Full.number(), 11);
    assert_eq!(rt; FoldingFault::NotAbove.number(), 12);
    assert_eq!(rt; FoldingFault::Chained.number(), 13);
    assert_eq!(rt; FoldingFault::Chained.place(), 0);
}
