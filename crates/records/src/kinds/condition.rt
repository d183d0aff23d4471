// Conditions: what a draft is made of.
ghost use Rattle.std.specs.Prelude.{◌≡◌, ℕ, slice_index, refl};
ghost use Rattle.std.proofs.Common.{sym, arith, rules};
ghost use Rattle.records.specs.Kinds.{KindOf, kind_number, condition_fields, condition_of, kind_known};
ghost use Rattle.std.proofs.lemmas.List.FromFn.{fill_by_all};

use crate::fields::{put_fields, take_field};
use crate::record::Record;

// How two lists of values are compared: all values agree, or one is shared.
#[derive(Clone, Copy, PartialEq, Eq, Debug)]
pub enum Kind {
    Equal = 0,
    Share = 1,
}

// A number that stands for no kind.
#[derive(Clone, Copy, PartialEq, Eq, Debug)]
pub struct UnknownKind(pub u32);

impl TryFrom<u32> for Kind {
    type Error = UnknownKind;

    ghost try_from_gives = { KindOf };

    fn try_from(number: u32) -> Result<Kind, UnknownKind> {
        match number {
            0 => Ok(Kind::Equal),
            1 => Ok(Kind::Share),
            _ => Err(UnknownKind(number)),
        }
    }
}

impl From<Kind> for u32 {
    ghost from_gives = { λ kind number. number ≡ kind_number kind };

    fn from(kind: Kind) -> u32 {
        kind as u32
    }
}

// A left property compared with a right one.
// The kind is the number that stands in the bytes, known or not: whoever writes a record or adds to a draft may hand in any, and is refused.
#[derive(Clone, Copy, PartialEq, Eq, Debug)]
pub struct Condition {
    pub kind: u32,
    pub left: u32,
    pub right: u32,
}

impl Record for Condition {
    const SIZE: usize = 12;

    ghost size = { 12 };

    ghost fields = { condition_fields };

    ghost made = { condition_of };

    ghost allowed = { kind_known };

    ghost some = { Prim.search rules };

    ghost whole = { Prim.search rules };

    ghost carried = { Prim.search rules };

    ghost kept = { λ fs l h. sym (fill_by_all (λ (j : ℕ). slice_index fs j) fs 3 0 (omega arith) (λ k m. refl)) };

    fn stride() -> usize {
        Self::SIZE
    }

    fn is_allowed(&self) -> bool {
        Kind::try_from(self.kind).is_ok()
    }

    fn parse(part: &[u8]) -> Option<Condition> {
        let (kind, rest) = take_field(part)?;
        let (left, rest) = take_field(rest)?;
        let (right, _) = take_field(rest)?;
        Some(Condition { kind, left, right })
    }

    fn put(&self, part: &mut [u8]) {
        put_fields(part, &[self.kind, self.left, self.right]);
    }
}
