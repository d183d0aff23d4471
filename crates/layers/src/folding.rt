// The folding layer: values become others by a folding list.
ghost use Rattle.std.specs.Prelude.{◌≡◌};
ghost use Rattle.layers.specs.Held.{foldings};
ghost use Rattle.layers.specs.Layers.{folded_by};
ghost use Rattle.layers.specs.Soundness.{folding_list_sound};

use crate::folding_list::FoldingList;
use tables::Table;

// The table below with each value as `list` folds it.
#[derive(Drop)]
pub struct FoldingLayer<T> {
    below: T,
    list: FoldingList,
}

impl<T: Table> FoldingLayer<T> {
    pub fn new(below: T, list: FoldingList) -> FoldingLayer<T>
        ensures below { result.below ≡ below }
        ensures list { result.list ≡ list }
    {
        FoldingLayer { below, list }
    }

    // The table below, as it was.
    pub fn into_below(self) -> T
        ensures { result ≡ self.below }
    {
        self.below
    }
}

impl<T: Table> Table for FoldingLayer<T> {
    ghost meaning = { λ t. folded_by (T.Table.meaning t.below) (foldings t.list) };

    ghost sound = { λ t. folding_list_sound (T.Table.meaning t.below) t.list (T.Table.sound t.below) };

    fn subjects(&self) -> usize {
        self.below.subjects()
    }

    fn properties(&self) -> usize {
        self.below.properties()
    }

    fn is_present(&self, s: usize) -> bool {
        self.below.is_present(s)
    }

    fn count(&self, s: usize, p: usize) -> usize {
        self.below.count(s, p)
    }

    fn value(&self, s: usize, p: usize, i: usize) -> Option<u32> {
        self.below.value(s, p, i).map(|v| self.list.becomes(v))
    }
}
