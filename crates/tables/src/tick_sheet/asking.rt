// The five questions to a tick sheet.
ghost use Rattle.std.specs.Prelude.{◌≡◌, ℕ, ◌+◌, ◌^◌, ◌<◌, ◌≤◌, List, [], length, if◌then◌else◌, nat_lt, refl};
ghost use Rattle.tables.specs.TickSheet.{row, sheet, ticked, tick_word, sheet_present};
ghost use Rattle.std.proofs.Common.{arith};
ghost use Rattle.std.specs.List.{AllByRecursion};
ghost use Rattle.std.proofs.lemmas.Bool.{cond_both, cond-false, le-ltb};
ghost use Rattle.tables.specs.Rows.{Allowed, allowed_from};
ghost use Rattle.tables.specs.Ticks.{ticked_short, ticked_small};
ghost use Rattle.tables.specs.SheetTableLemmas.{listed};

use super::TickSheet;
use super::reading::{PRESENT, row_of, tick_at, tick_count};
use crate::table::Table;

impl TickSheet {
    // The words of subject `s`.
    fn row(&self, s: usize) -> &[u64]
        requires { s < self.now.subjects }
        ensures value { result.now ≡ row self.now.words.items self.now.properties s }
        ensures len { length result.now ≡ self.now.properties + 1 }
    {
        row_of(self.words.as_slice(), self.properties, s)
    }

    // The word whose ticks are the list at subject `s` and property `p`: 0 where the subject is absent, or out of range.
    fn ticks(&self, s: usize, p: usize) -> u64
        ensures { (sheet self.now.words.items self.now.subjects self.now.properties).values s p ≡ ticked result }
    {
        if s >= self.subjects || p >= self.properties {
            return 0;
        }
        let row = self.row(s);
        if row[0] == PRESENT { row[p + 1] } else { 0 }
    }
}

impl Table for TickSheet {
    ghost meaning = { λ t. sheet t.words.items t.subjects t.properties };

    ghost sound = { λ t.
        let ws : List ℕ = t.words.items in
        let n = t.subjects in
        let m = t.properties in
        let h : Allowed ws n m = allowed_from ws n m t.allowed in
        record {
          few_subjects = h.few;
          few_properties = h.narrow;
          absent_beyond = λ s l. cond-false _ _ _ (le-ltb s n l);
          empty_if_absent = λ s p e. cond-false _ _ _ e;
          empty_beyond = λ s p l.
              cond_both (sheet_present ws n m s) (if nat_lt p m then ticked (tick_word (row ws m s) p) else []) [] (λ vs. vs ≡ []) (λ _. cond-false _ _ _ (le-ltb p m l)) (λ _. refl);
          short_lists = λ s p. listed (λ vs. length vs ≤ 65536) ws n m s p (omega arith) ticked_short;
          four_byte_values = λ s p. listed (AllByRecursion (λ v. v < 2 ^ 32)) ws n m s p tt ticked_small;
        } };

    fn subjects(&self) -> usize {
        self.subjects
    }

    fn properties(&self) -> usize {
        self.properties
    }

    fn is_present(&self, s: usize) -> bool {
        s < self.subjects && self.row(s)[0] == PRESENT
    }

    fn count(&self, s: usize, p: usize) -> usize {
        tick_count(self.ticks(s, p))
    }

    fn value(&self, s: usize, p: usize, i: usize) -> Option<u32> {
        tick_at(self.ticks(s, p), i)
    }
}
