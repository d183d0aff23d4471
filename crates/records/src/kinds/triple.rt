// Triples: what a register holds.
ghost use Rattle.records.specs.Kinds.{triple_fields, triple_of, any_body};
ghost use Rattle.std.proofs.Common.{sym, arith, rules};
ghost use Rattle.std.specs.Prelude.{ℕ, slice_index, refl};
ghost use Rattle.std.proofs.lemmas.List.FromFn.{fill_by_all};

use crate::fields::{put_fields, take_field};
use crate::record::Record;

// A subject has a value at a property.
#[derive(Clone, Copy, PartialEq, Eq, PartialOrd, Ord, Debug)]
pub struct Triple {
    pub subject: u32,
    pub property: u32,
    pub value: u32,
}

impl Record for Triple {
    const SIZE: usize = 12;

    ghost size = { 12 };

    ghost fields = { triple_fields };

    ghost made = { triple_of };

    ghost allowed = { any_body };

    ghost some = { Prim.search rules };

    ghost whole = { Prim.search rules };

    ghost carried = { Prim.search rules };

    ghost kept = { λ fs l h. sym (fill_by_all (λ (j : ℕ). slice_index fs j) fs 3 0 (omega arith) (λ k m. refl)) };

    fn stride() -> usize {
        Self::SIZE
    }

    fn is_allowed(&self) -> bool {
        true
    }

    fn parse(part: &[u8]) -> Option<Triple> {
        let (subject, rest) = take_field(part)?;
        let (property, rest) = take_field(rest)?;
        let (value, _) = take_field(rest)?;
        Some(Triple {
            subject,
            property,
            value,
        })
    }

    fn put(&self, part: &mut [u8]) {
        put_fields(part, &[self.subject, self.property, self.value]);
    }
}
