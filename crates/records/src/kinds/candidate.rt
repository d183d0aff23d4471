// Candidates: what a listing hands out.
ghost use Rattle.records.specs.Kinds.{candidate_fields, candidate_of, any_body};
ghost use Rattle.std.specs.Prelude.{◌≡◌, ℕ, ◌+◌, ◌*◌, ◌/◌, ◌%◌, slice_index, slice_index_or, refl};
ghost use Rattle.std.proofs.Common.{arith, rules};
ghost use Rattle.std.proofs.lemmas.List.FromFn.{fill_by_all};

use crate::fields::{put_fields, take_field};
use crate::record::Record;

// A link key candidate with its counts.
#[derive(Clone, Copy, PartialEq, Eq, Debug)]
pub struct Candidate {
    pub code: u64,
    pub links: u32,
    pub left_linked: u32,
    pub right_linked: u32,
    pub left_present: u32,
    pub right_present: u32,
    pub conditions: u32,
}

// A code takes two fields: how many numbers the lower one tells apart.
const LOWER: u64 = 4294967296;

impl Record for Candidate {
    const SIZE: usize = 32;

    ghost size = { 32 };

    ghost fields = { candidate_fields };

    ghost made = { candidate_of };

    ghost allowed = { any_body };

    ghost some = { Prim.search rules };

    ghost whole = { Prim.search rules };

    ghost carried = { Prim.search rules };

    ghost kept = { λ fs l h.
        let whole = fill_by_all (λ (j : ℕ). slice_index fs j) fs 8 0 (omega arith) (λ k m. refl) in
        let lower : (slice_index fs 0 + slice_index fs 1 * 4294967296) % 4294967296 ≡ slice_index_or fs 0 0 = omega (arith, h 0) in
        let upper : (slice_index fs 0 + slice_index fs 1 * 4294967296) / 4294967296 ≡ slice_index_or fs 1 0 = omega (arith, h 0) in
        cc };

    fn stride() -> usize {
        Self::SIZE
    }

    fn is_allowed(&self) -> bool {
        true
    }

    fn parse(part: &[u8]) -> Option<Candidate> {
        let (lower, rest) = take_field(part)?;
        let (upper, rest) = take_field(rest)?;
        let (links, rest) = take_field(rest)?;
        let (left_linked, rest) = take_field(rest)?;
        let (right_linked, rest) = take_field(rest)?;
        let (left_present, rest) = take_field(rest)?;
        let (right_present, rest) = take_field(rest)?;
        let (conditions, _) = take_field(rest)?;
        let code = u64::from(lower) + u64::from(upper) * LOWER;
        Some(Candidate {
            code,
            links,
            left_linked,
            right_linked,
            left_present,
            right_present,
            conditions,
        })
    }

    fn put(&self, part: &mut [u8]) {
        let lower = (self.code % LOWER) as u32;
        let upper = (self.code / LOWER) as u32;
        let fields = [
            lower,
            upper,
            self.links,
            self.left_linked,
            self.right_linked,
            self.left_present,
            self.right_present,
            self.conditions,
        ];
        put_fields(part, &fields);
    }
}
