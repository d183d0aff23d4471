// The kind layer: only subjects of one kind are present.
ghost use Rattle.std.specs.Prelude.{◌≡◌};
ghost use Rattle.layers.specs.Layers.{of_kind};
ghost use Rattle.std.proofs.Common.{rules};

use tables::{Table, ValueList};

// A table of those subjects below whose list at `property` has `value`.
#[derive(Drop)]
pub struct KindLayer<T> {
    below: T,
    property: usize,
    value: u32,
}

impl<T: Table> KindLayer<T> {
    pub fn new(below: T, property: usize, value: u32) -> KindLayer<T>
        ensures below { result.below ≡ below }
        ensures property { result.property ≡ property }
        ensures value { result.value ≡ value }
    {
        KindLayer {
            below,
            property,
            value,
        }
    }

    // The table below, as it was.
    pub fn into_below(self) -> T
        ensures { result ≡ self.below }
    {
        self.below
    }
}

impl<T: Table> Table for KindLayer<T> {
    ghost meaning = { λ t. of_kind (T.Table.meaning t.below) t.property t.value };

    // The search stands here, as src/ can cite nothing of its own crate's proofs/.
    ghost sound = { Prim.search rules };

    fn subjects(&self) -> usize {
        self.below.subjects()
    }

    fn properties(&self) -> usize {
        self.below.properties()
    }

    fn is_present(&self, s: usize) -> bool {
        let list = ValueList {
            table: &self.below,
            subject: s,
            property: self.property,
        };
        self.below.is_present(s) && list.contains(self.value)
    }

    fn count(&self, s: usize, p: usize) -> usize {
        if self.is_present(s) {
            self.below.count(s, p)
        } else {
            0
        }
    }

    fn value(&self, s: usize, p: usize, i: usize) -> Option<u32> {
        if self.is_present(s) {
            self.below.value(s, p, i)
        } else {
            None
        }
    }
}
