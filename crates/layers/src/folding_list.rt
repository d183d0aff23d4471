// Folding lists: which values become which.
ghost use Rattle.std.specs.Prelude.{◌≡◌, ◌≤◌, true, vec_len, vec_capacity};
ghost use Rattle.std.specs.List.Sorted.{IsStrictlyIncreasing};
ghost use Rattle.layers.specs.Foldings.{froms, chain_free, four_byte_tos, folding_refusal};

use records::Fault;

mod calls;
#[cfg(test)]
mod tests;

// The value `from` becomes the value `to`.
#[derive(Clone, Copy, PartialEq, Eq, Debug)]
pub struct Folding {
    pub from: u32,
    pub to: u32,
}

// Up to 64 entries, their `from`s ascending, and no `to` among the `from`s. The memory for all of them is there from the start.
#[derive(Drop)]
pub struct FoldingList {
    entries: Vec<Folding>,
    ghost few: { vec_len entries ≤ 64 },
    ghost reserved: { 64 ≤ vec_capacity entries },
    ghost ascending: { IsStrictlyIncreasing (froms entries.items) },
    ghost unchained: { chain_free entries.items ≡ true },
    ghost narrow: { four_byte_tos entries.items ≡ true },
}

// Why an entry was not added.
#[derive(Clone, Copy, PartialEq, Eq, Debug)]
pub enum FoldingFault {
    Full,
    NotAbove,
    Chained,
}

impl Fault for FoldingFault {
    ghost refusal = { folding_refusal };

    fn number(&self) -> u32 {
        match *self {
            FoldingFault::Full => 11,
            FoldingFault::NotAbove => 12,
            FoldingFault::Chained => 13,
        }
    }

    fn place(&self) -> usize {
        0
    }
}
