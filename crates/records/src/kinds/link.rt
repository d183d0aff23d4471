// Links: a found thing and a report.
ghost use Rattle.records.specs.Kinds.{link_fields, link_of, any_body};
ghost use Rattle.std.proofs.Common.{sym, arith, rules};
ghost use Rattle.std.specs.Prelude.{ℕ, slice_index, refl};
ghost use Rattle.std.proofs.lemmas.List.FromFn.{fill_by_all};

use crate::fields::{put_fields, take_field};
use crate::record::Record;

// A left subject tied to a right one.
#[derive(Clone, Copy, PartialEq, Eq, Debug)]
pub struct Link {
    pub left: u32,
    pub right: u32,
}

impl Record for Link {
    const SIZE: usize = 8;

    ghost size = { 8 };

    ghost fields = { link_fields };

    ghost made = { link_of };

    ghost allowed = { any_body };

    ghost some = { Prim.search rules };

    ghost whole = { Prim.search rules };

    ghost carried = { Prim.search rules };

    ghost kept = { λ fs l h. sym (fill_by_all (λ (j : ℕ). slice_index fs j) fs 2 0 (omega arith) (λ k m. refl)) };

    fn stride() -> usize {
        Self::SIZE
    }

    fn is_allowed(&self) -> bool {
        true
    }

    fn parse(part: &[u8]) -> Option<Link> {
        let (left, rest) = take_field(part)?;
        let (right, _) = take_field(rest)?;
        Some(Link { left, right })
    }

    fn put(&self, part: &mut [u8]) {
        put_fields(part, &[self.left, self.right]);
    }
}
