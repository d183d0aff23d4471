// How many picks there may be, and which they are.
use super::{Picks, PicksFault};
use records::Fault;
use std::test::Fail;

#[test]
fn takes_16_picks(rt: HostRuntime) -> Result<(), Fail> {
    let mut picks = Picks::new(rt.alloc())?;
    assert_eq!(rt; picks.len(), 0);
    assert_eq!(rt; picks.at(0), None);
    for n in 0..16usize {
        assert_eq!(rt; picks.add(100 - n), Ok(()));
    }
    assert_eq!(rt; picks.add(0), Err(PicksFault::Full));
    assert_eq!(rt; PicksFault::Full.number(), 14);
    assert_eq!(rt; PicksFault::Full.place(), 0);
    assert_eq!(rt; picks.len(), 16);
    assert_eq!(rt; picks.at(0), Some(100));
    assert_eq!(rt; picks.at(15), Some(85));
    assert_eq!(rt; picks.at(16), None);
    Ok(())
}
