// The pick layer: some properties, in an order of one's own.
ghost use Rattle.std.specs.Prelude.{◌≡◌};
ghost use Rattle.layers.specs.Held.{picked};
ghost use Rattle.layers.specs.Layers.{picked_by};
ghost use Rattle.layers.specs.Soundness.{picks_sound};

use crate::picks::Picks;
use tables::Table;

// The table below with the properties that `picks` has. A pick that is out of range below has empty lists.
#[derive(Drop)]
pub struct PickLayer<T> {
    below: T,
    picks: Picks,
}

impl<T: Table> PickLayer<T> {
    pub fn new(below: T, picks: Picks) -> PickLayer<T>
        ensures below { result.below ≡ below }
        ensures picks { result.picks ≡ picks }
    {
        PickLayer { below, picks }
    }

    // The table below, as it was.
    pub fn into_below(self) -> T
        ensures { result ≡ self.below }
    {
        self.below
    }
}

impl<T: Table> Table for PickLayer<T> {
    ghost meaning = { λ t. picked_by (T.Table.meaning t.below) (picked t.picks) };

    ghost sound = { λ t. picks_sound (T.Table.meaning t.below) t.picks (T.Table.sound t.below) };

    fn subjects(&self) -> usize {
        self.below.subjects()
    }

    fn properties(&self) -> usize {
        self.picks.len()
    }

    fn is_present(&self, s: usize) -> bool {
        self.below.is_present(s)
    }

    fn count(&self, s: usize, p: usize) -> usize {
        self.picks
            .at(p)
            .map_or(0, |below| self.below.count(s, below))
    }

    fn value(&self, s: usize, p: usize, i: usize) -> Option<u32> {
        self.picks
            .at(p)
            .and_then(|below| self.below.value(s, below, i))
    }
}
