// Picks: which properties are picked, in which order.
ghost use Rattle.std.specs.Prelude.{◌≤◌, vec_len, vec_capacity};
ghost use Rattle.layers.specs.Picking.{picks_refusal};

use records::Fault;

mod calls;
#[cfg(test)]
mod tests;

// Up to 16 property numbers, each of any size. The memory for all of them is there from the start.
#[derive(Drop)]
pub struct Picks {
    numbers: Vec<usize>,
    ghost few: { vec_len numbers ≤ 16 },
    ghost reserved: { 16 ≤ vec_capacity numbers },
}

// Why a pick was not added.
#[derive(Clone, Copy, PartialEq, Eq, Debug)]
pub enum PicksFault {
    Full,
}

impl Fault for PicksFault {
    ghost refusal = { picks_refusal };

    fn number(&self) -> u32 {
        match *self {
            PicksFault::Full => 14,
        }
    }

    fn place(&self) -> usize {
        0
    }
}
