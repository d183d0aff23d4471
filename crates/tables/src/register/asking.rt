// The five questions to a register file.
ghost use Rattle.std.specs.Prelude.{◌≡◌, ℕ, ◌/◌, ◌<◌, ◌≤◌, List, length};
ghost use Rattle.tables.specs.Register.{register};
ghost use Rattle.tables.specs.RegisterSearch.{key_at, Rising, Span};
ghost use Rattle.std.proofs.Common.{inl, inr, arith};
ghost use Rattle.std.proofs.lemmas.Bool.{le-ltb, ltb-false};
ghost use Rattle.tables.specs.Spans.{values_outside, values_short, values_small};
ghost use Rattle.tables.specs.Triples.{Allowed, allowed_from};

use super::RegisterFile;
use super::reading::{KEYS, SIZE, is_below, triple_at};
use crate::table::Table;
use std::ops::Range;

// The number of the first triple whose key is not below `key`.
fn floor(bytes: &[u8], key: u64) -> usize
    requires { Rising bytes.now }
    ensures within { result ≤ length bytes.now / 12 }
    ensures below { (k : ℕ) → k < result → key_at bytes.now k < key }
    ensures from { (k : ℕ) → result ≤ k → k < length bytes.now / 12 → key ≤ key_at bytes.now k }
{
    let (records, _) = bytes.as_chunks::<SIZE>();
    records.partition_point(|record| is_below(record, key))
}

impl RegisterFile {
    // The numbers of the triples of subject `s` and property `p`.
    fn span(&self, s: usize, p: usize) -> Range<usize>
        ensures { Span self.now.bytes.items s p result.start result.end }
    {
        if s >= self.subjects || p >= self.properties {
            return 0..0;
        }
        let bytes = self.bytes.as_slice();
        let key = s as u64 * KEYS + p as u64;
        floor(bytes, key)..floor(bytes, key + 1)
    }
}

impl Table for RegisterFile {
    ghost meaning = { λ t. register t.bytes.items t.subjects t.properties };

    ghost sound = { λ t.
        let xs : List ℕ = t.bytes.items in
        let n = t.subjects in
        let m = t.properties in
        let h : Allowed xs n m = allowed_from xs n m t.allowed in
        record {
          few_subjects = h.few;
          few_properties = h.narrow;
          absent_beyond = λ s l. le-ltb s n l;
          empty_if_absent = λ s p e. values_outside xs n m s p h (inl (ltb-false s n e));
          empty_beyond = λ s p l. values_outside xs n m s p h (inr l);
          short_lists = λ s p. omega (arith, values_short xs s p, h.short);
          four_byte_values = λ s p. values_small xs s p t.small;
        } };

    fn subjects(&self) -> usize {
        self.subjects
    }

    fn properties(&self) -> usize {
        self.properties
    }

    fn is_present(&self, s: usize) -> bool {
        s < self.subjects
    }

    fn count(&self, s: usize, p: usize) -> usize {
        self.span(s, p).len()
    }

    fn value(&self, s: usize, p: usize, i: usize) -> Option<u32> {
        let span = self.span(s, p);
        if i < span.len() {
            Some(triple_at(self.bytes.as_slice(), span.start + i).value)
        } else {
            None
        }
    }
}
