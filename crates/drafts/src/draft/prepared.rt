// Prepared comparisons: the lists that they compare, asked for once and kept in memory.
ghost use Rattle.std.specs.Prelude.{◌≡◌, ℕ, ◌+◌, ◌*◌, ◌^◌, ◌<◌, ◌≤◌, length, vec_len, IfOk, if◌then◌else◌, slice_index};
ghost use Rattle.std.specs.List.{All};
ghost use Rattle.drafts.specs.Preparing.{AllPrepared, HasLists, Prepares, prepared_holds};

use super::Draft;
use super::lists::{agree, copy_lists};
use crate::comparison::Comparison;
use records::Kind;
use std::alloc::{AllocError, Global};
use tables::Table;

// A comparison, with the lists of all left and all right subjects at its two properties.
#[derive(Drop)]
pub(super) struct Prepared {
    kind: Kind,
    left: Vec<Vec<u32>>,
    right: Vec<Vec<u32>>,
}

// The comparisons of a draft, prepared in their order, and how many left and right subjects have their lists.
#[derive(Drop)]
pub(super) struct PreparedDraft {
    pub(super) comparisons: Vec<Prepared>,
    pub(super) lefts: usize,
    pub(super) rights: usize,
    ghost few: { vec_len comparisons ≤ 64 },
    ghost few_subjects: { (lefts ≤ 2 ^ 32) × (rights ≤ 2 ^ 32) },
    ghost held: { (s : ℕ) → s < lefts → All (HasLists s rights) comparisons.items },
}

impl<L: Table, R: Table> Draft<L, R> {
    // Asks the tables for the lists of all comparisons.
    pub(super) fn prepare(&self, heap: Global) -> Result<PreparedDraft, AllocError>
        ensures { IfOk result (λ p. (p.lefts ≡ (L.Table.meaning self.now.left).subjects) × (p.rights ≡ (R.Table.meaning self.now.right).subjects) × AllPrepared (L.Table.meaning self.now.left) (R.Table.meaning self.now.right) self.now.comparisons.items p.comparisons.items) }
    {
        // A loop. Tried: `map` and `try_collect`: that each one made is prepared from its comparison (`returns`, `invariant_of-result`) stays open.
        let mut comparisons = Vec::new(heap);
        for comparison in &self.comparisons {
            comparisons.push(Prepared::of(heap, &self.left, &self.right, *comparison)?)?;
        }
        Ok(PreparedDraft {
            comparisons,
            lefts: self.left.subjects(),
            rights: self.right.subjects(),
        })
    }
}

impl Prepared {
    // Asks both tables for all lists at the properties of a comparison.
    fn of<L: Table, R: Table>(
        heap: Global,
        left: &L,
        right: &R,
        comparison: Comparison,
    ) -> Result<Prepared, AllocError>
        ensures { IfOk result (Prepares (L.Table.meaning left.now) (R.Table.meaning right.now) comparison) }
    {
        Ok(Prepared {
            kind: comparison.kind,
            left: copy_lists(heap, left, comparison.left)?,
            right: copy_lists(heap, right, comparison.right)?,
        })
    }

    // Doubles the codes of left subject `s`, and adds to each whether the comparison holds with that right subject.
    pub(super) fn add_to(&self, s: usize, row: &mut [u64])
        requires held { HasLists s (length row.old) self.now }
        requires small { (t : ℕ) → t < length row.old → slice_index row.old t * 2 + 1 < 2 ^ 64 }
        ensures { (t : ℕ) → t < length row.old → slice_index row.new t ≡ slice_index row.old t * 2 + (if prepared_holds self.now s t then 1 else 0) }
    {
        let values = self.left[s].as_slice();
        // By number. Tried: `row.iter_mut().zip(&self.right)`. After it the check knows of the row only its length, so what the function ensures (`returns`) stays open.
        for (t, code) in row.iter_mut().enumerate() {
            let holds = agree(self.kind, values, self.right[t].as_slice());
            *code = *code * 2 + u64::from(holds);
        }
    }
}
