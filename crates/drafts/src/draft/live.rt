// Live contexts: a draft that is started, and asked as it stands.
ghost use Rattle.std.specs.Prelude.{◌≡◌};
ghost use Rattle.drafts.specs.Alike.{AlikeTablesRelateAlike};
ghost use Rattle.drafts.specs.Live.{live};
ghost use Rattle.drafts.specs.Soundness.{draft_sound};

use super::Draft;
use contexts::{CodedPair, Context};
use std::alloc::{AllocError, Global};
use tables::Table;

// A draft that is started: it can change no more.
pub struct Live<L, R> {
    draft: Draft<L, R>,
}

impl<L: Table, R: Table> Draft<L, R> {
    // Starts the draft: from here on it is a context.
    pub fn start(self) -> Live<L, R>
        ensures draft { result.draft ≡ self }
        ensures alike { AlikeTablesRelateAlike (L.Table.meaning self.left) (R.Table.meaning self.right) self.comparisons.items }
    {
        Live { draft: self }
    }
}

impl<L: Table, R: Table> Live<L, R> {
    // The tables, as they were given.
    pub fn into_tables(self) -> (L, R)
        ensures { (result.0 ≡ self.draft.left) × (result.1 ≡ self.draft.right) }
    {
        let Live { draft } = self;
        draft.into_tables()
    }
}

impl<L: Table, R: Table> Context for Live<L, R> {
    ghost relation = { λ v. live (L.Table.meaning v.draft.left) (R.Table.meaning v.draft.right) v.draft.comparisons.items };

    ghost sound = { λ v. draft_sound (L.Table.meaning v.draft.left) (R.Table.meaning v.draft.right) v.draft.comparisons (L.Table.sound v.draft.left) (R.Table.sound v.draft.right) v.draft.few };

    fn lefts(&self) -> usize {
        self.draft.left.subjects()
    }

    fn rights(&self) -> usize {
        self.draft.right.subjects()
    }

    fn conditions(&self) -> usize {
        self.draft.comparisons.len()
    }

    fn left_present(&self, s: usize) -> bool {
        self.draft.left.is_present(s)
    }

    fn right_present(&self, t: usize) -> bool {
        self.draft.right.is_present(t)
    }

    fn code(&self, s: usize, t: usize) -> u64 {
        self.draft.code(s, t)
    }

    // A list is asked for once a comparison, and not for every pair that it is in.
    fn coded_pairs(&self, heap: Global) -> Result<Vec<CodedPair>, AllocError> {
        self.draft.prepare(heap)?.coded_pairs(heap)
    }
}
