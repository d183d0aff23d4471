// A pile of all three layers over a small table.
ghost use Rattle.std.specs.Prelude.{◌+◌, ◌&&◌, ltb, [], ◌∷◌, if◌then◌else◌, nat_lt};
ghost use Rattle.std.proofs.Common.{rules};

use super::folding::FoldingLayer;
use super::kind::KindLayer;
use super::pick::PickLayer;
use crate::folding_list::FoldingList;
use crate::picks::Picks;
use std::test::Fail;
use tables::{Table, ValueList};

// Three subjects with two properties: subject s has s and 10 + p at property p.
#[derive(Drop)]
struct Sample;

impl Table for Sample {
    ghost meaning = { λ _. record { subjects = 3; properties = 2; present = λ s. nat_lt s 3; values = λ s p. (if ltb s 3 && nat_lt p 2 then s ∷ (10 + p) ∷ [] else []) } };

    ghost sound = { Prim.search rules };

    fn subjects(&self) -> usize {
        3
    }

    fn properties(&self) -> usize {
        2
    }

    fn is_present(&self, s: usize) -> bool {
        s < 3
    }

    fn count(&self, s: usize, p: usize) -> usize {
        if s < 3 && p < 2 { 2 } else { 0 }
    }

    fn value(&self, s: usize, p: usize, i: usize) -> Option<u32> {
        if s < 3 && p < 2 {
            match i {
                0 => Some(s as u32),
                1 => Some(10 + p as u32),
                _ => None,
            }
        } else {
            None
        }
    }
}

#[test]
fn pile_of_all_layers(rt: HostRuntime) -> Result<(), Fail> {
    let mut list = FoldingList::new(rt.alloc())?;
    assert!(rt; list.add(2, 40).is_ok());
    assert!(rt; list.add(11, 41).is_ok());
    let mut picks = Picks::new(rt.alloc())?;
    assert!(rt; picks.add(1).is_ok());
    assert!(rt; picks.add(7).is_ok());
    assert!(rt; picks.add(0).is_ok());
    assert!(rt; picks.add(1).is_ok());
    let folded = FoldingLayer::new(Sample, list);
    let kind = KindLayer::new(folded, 0, 40);
    let pile = PickLayer::new(kind, picks);
    assert_eq!(rt; pile.subjects(), 3);
    assert_eq!(rt; pile.properties(), 4);
    assert!(rt; !pile.is_present(1) && pile.is_present(2) && !pile.is_present(3));
    assert_eq!(rt; pile.count(2, 0), 2);
    assert_eq!(rt; pile.value(2, 0, 0), Some(40));
    assert_eq!(rt; pile.value(2, 0, 1), Some(41));
    assert_eq!(rt; pile.value(2, 0, 2), None);
    assert_eq!(rt; pile.count(2, 1), 0);
    assert_eq!(rt; pile.value(2, 1, 0), None);
    assert_eq!(rt; pile.value(2, 2, 1), Some(10));
    assert_eq!(rt; pile.value(2, 3, 1), Some(41));
    assert_eq!(rt; pile.count(2, 4), 0);
    assert_eq!(rt; pile.count(1, 0), 0);
    assert_eq!(rt; pile.value(1, 0, 0), None);
    let list = ValueList {
        table: &pile,
        subject: 2,
        property: 0,
    };
    assert!(rt; list.contains(41));
    assert!(rt; !list.contains(11));
    let below = pile.into_below().into_below().into_below();
    assert_eq!(rt; below.value(1, 1, 1), Some(11));
    Ok(())
}

// The kind layer asks below the folding layer, so it sees the value that is folded above it.
#[test]
fn pile_in_another_order(rt: HostRuntime) -> Result<(), Fail> {
    let mut picks = Picks::new(rt.alloc())?;
    assert!(rt; picks.add(1).is_ok());
    assert!(rt; picks.add(0).is_ok());
    let mut list = FoldingList::new(rt.alloc())?;
    assert!(rt; list.add(2, 40).is_ok());
    let picked = PickLayer::new(Sample, picks);
    let kind = KindLayer::new(picked, 1, 2);
    let pile = FoldingLayer::new(kind, list);
    assert_eq!(rt; (pile.subjects(), pile.properties()), (3, 2));
    assert!(rt; !pile.is_present(0) && !pile.is_present(1) && pile.is_present(2));
    assert_eq!(rt; pile.value(2, 1, 0), Some(40));
    assert_eq!(rt; pile.value(2, 0, 1), Some(11));
    assert_eq!(rt; pile.count(2, 2), 0);
    assert_eq!(rt; pile.count(1, 0), 0);
    let below = pile.into_below().into_below().into_below();
    assert_eq!(rt; below.value(2, 0, 0), Some(2));
    Ok(())
}
