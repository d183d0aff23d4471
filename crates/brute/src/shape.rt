// Which tables a round compares.
use crate::random::Random;
use crate::round::{Seen, compare};
use crate::sample::{foldings, kind, picks, register, sheet};
use crate::trouble::Trouble;
use layers::{FoldingLayer, KindLayer, PickLayer};
use std::alloc::Global;
use tables::Table;

// The left and the right table; a pile names its upper layer first.
#[derive(Clone, Copy)]
pub enum Shape {
    Registers,
    Sheets,
    RegisterAndSheet,
    KindAndFolding,
    PickAndKind,
    FoldedKindAndPickedFolding,
    KindOfFoldedAndFoldedPick,
}

impl Shape {
    // The shape of a round: they take turns.
    pub fn of(round: u32) -> Shape {
        match round % 7 {
            0 => Shape::Registers,
            1 => Shape::Sheets,
            2 => Shape::RegisterAndSheet,
            3 => Shape::KindAndFolding,
            4 => Shape::PickAndKind,
            5 => Shape::FoldedKindAndPickedFolding,
            _ => Shape::KindOfFoldedAndFoldedPick,
        }
    }

    pub fn has_layers(self) -> bool {
        match self {
            Shape::Registers | Shape::Sheets | Shape::RegisterAndSheet => false,
            Shape::KindAndFolding
            | Shape::PickAndKind
            | Shape::FoldedKindAndPickedFolding
            | Shape::KindOfFoldedAndFoldedPick => true,
        }
    }

    // Makes two tables of this shape and compares them.
    pub fn play(self, heap: Global, random: &mut Random) -> Result<Seen, Trouble> {
        match self {
            Shape::Registers => {
                let left = register(heap, random)?;
                let right = register(heap, random)?;
                compare(heap, random, left, right)
            }
            Shape::Sheets => {
                let left = sheet(heap, random)?;
                let right = sheet(heap, random)?;
                compare(heap, random, left, right)
            }
            Shape::RegisterAndSheet => {
                let left = register(heap, random)?;
                let right = sheet(heap, random)?;
                compare(heap, random, left, right)
            }
            Shape::KindAndFolding => kind_and_folding(heap, random),
            Shape::PickAndKind => pick_and_kind(heap, random),
            Shape::FoldedKindAndPickedFolding => folded_kind_and_picked_folding(heap, random),
            Shape::KindOfFoldedAndFoldedPick => kind_of_folded_and_folded_pick(heap, random),
        }
    }
}

fn kind_and_folding(heap: Global, random: &mut Random) -> Result<Seen, Trouble> {
    let sheet = sheet(heap, random)?;
    let register = register(heap, random)?;
    let left = of_kind(random, sheet);
    let right = folded(heap, random, register)?;
    compare(heap, random, left, right)
}

fn pick_and_kind(heap: Global, random: &mut Random) -> Result<Seen, Trouble> {
    let left = register(heap, random)?;
    let right = register(heap, random)?;
    let left = picked(heap, random, left)?;
    let right = of_kind(random, right);
    compare(heap, random, left, right)
}

fn folded_kind_and_picked_folding(heap: Global, random: &mut Random) -> Result<Seen, Trouble> {
    let sheet = sheet(heap, random)?;
    let register = register(heap, random)?;
    let kind = of_kind(random, sheet);
    let folding = folded(heap, random, register)?;
    let left = folded(heap, random, kind)?;
    let right = picked(heap, random, folding)?;
    compare(heap, random, left, right)
}

fn kind_of_folded_and_folded_pick(heap: Global, random: &mut Random) -> Result<Seen, Trouble> {
    let register = register(heap, random)?;
    let sheet = sheet(heap, random)?;
    let folding = folded(heap, random, register)?;
    let pick = picked(heap, random, sheet)?;
    let left = of_kind(random, folding);
    let right = folded(heap, random, pick)?;
    compare(heap, random, left, right)
}

fn of_kind<T: Table>(random: &mut Random, below: T) -> KindLayer<T> {
    let (property, value) = kind(random);
    KindLayer::new(below, property, value)
}

// `picked` is the same of another layer; a trait over the two would be longer than both.
fn folded<T: Table + Drop>(
    heap: Global,
    random: &mut Random,
    below: T,
) -> Result<FoldingLayer<T>, Trouble> {
    let list = foldings(heap, random)?;
    Ok(FoldingLayer::new(below, list))
}

fn picked<T: Table + Drop>(
    heap: Global,
    random: &mut Random,
    below: T,
) -> Result<PickLayer<T>, Trouble> {
    let picks = picks(heap, random)?;
    Ok(PickLayer::new(below, picks))
}
