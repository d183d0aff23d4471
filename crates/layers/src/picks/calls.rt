// The calls on picks.
ghost use Rattle.std.specs.Prelude.{◌≡◌, [], ◌∷◌, ◌++◌, length, is_ok, IfOk, if◌then◌else◌};
ghost use Rattle.std.specs.List.{slice_get};
ghost use Rattle.records.specs.Refusals.{told};
ghost use Rattle.records.specs.Questions.{answer_by};
ghost use Rattle.layers.specs.Held.{picked};
ghost use Rattle.layers.specs.Picking.{picks_fault, picks_refusal};

use super::{Picks, PicksFault};
use std::alloc::{AllocError, Global};

impl Picks {
    // The most picks that there may be.
    const MOST: usize = 16;

    // No picks yet, which fails only for want of memory.
    pub fn new(heap: Global) -> Result<Picks, AllocError>
        ensures { IfOk result (λ ps. picked ps ≡ []) }
    {
        Ok(Picks {
            numbers: Vec::with_capacity(heap, Self::MOST)?,
        })
    }

    // Picks `property` after the others.
    pub fn add(&mut self, property: usize) -> Result<(), PicksFault>
        ensures answer { told picks_refusal result ≡ answer_by (picks_fault (picked self.old)) }
        ensures after { picked self.new ≡ (if is_ok result then picked self.old ++ property ∷ [] else picked self.old) }
    {
        if self.len() >= Self::MOST {
            return Err(PicksFault::Full);
        }
        self.numbers.push_reserved(property);
        Ok(())
    }

    // How many picks there are.
    pub fn len(&self) -> usize
        ensures { result ≡ length (picked self.now) }
    {
        self.numbers.len()
    }

    // The property of pick number `j`, or nothing where there are fewer.
    pub fn at(&self, j: usize) -> Option<usize>
        ensures { result ≡ slice_get (picked self.now) j }
    {
        self.numbers.get(j).copied()
    }
}
