// The calls on a folding list.
ghost use Rattle.std.specs.Prelude.{◌≡◌, [], ◌∷◌, ◌++◌, is_ok, IfOk, if◌then◌else◌};
ghost use Rattle.records.specs.Refusals.{told};
ghost use Rattle.records.specs.Questions.{Checked, answer_by};
ghost use Rattle.layers.specs.Foldings.{froms, above_all, chains, folding, folding_fault, folding_refusal, becomes};
ghost use Rattle.layers.specs.Held.{foldings};

use super::{Folding, FoldingFault, FoldingList};
use std::alloc::{AllocError, Global};

impl FoldingList {
    // The most entries that a list takes.
    const MOST: usize = 64;

    // The empty list, which fails only for want of memory. `Picks::new` is the same of another type; a trait over two lines would be no plainer.
    pub fn new(heap: Global) -> Result<FoldingList, AllocError>
        ensures { IfOk result (λ l. foldings l ≡ []) }
    {
        Ok(FoldingList {
            entries: Vec::with_capacity(heap, Self::MOST)?,
        })
    }

    // Adds the folding of `from` into `to` at the end.
    pub fn add(&mut self, from: u32, to: u32) -> Result<(), FoldingFault>
        ensures answer { told folding_refusal result ≡ answer_by (folding_fault (foldings self.old) from to) }
        ensures after { foldings self.new ≡ (if is_ok result then foldings self.old ++ folding from to ∷ [] else foldings self.old) }
    {
        self.check(from, to)?;
        self.entries.push_reserved(Folding { from, to });
        Ok(())
    }

    // What the value `v` becomes.
    pub fn becomes(&self, v: u32) -> u32
        ensures { result ≡ becomes (foldings self.now) v }
    {
        match self.entries.binary_search_by_key(&v, |entry| entry.from) {
            Ok(i) => self.entries[i].to,
            Err(_) => v,
        }
    }

    // Whether the folding of `from` into `to` may be added.
    fn check(&self, from: u32, to: u32) -> Result<(), FoldingFault>
        ensures { Checked folding_refusal (folding_fault (foldings self.now) from to) result }
    {
        if self.entries.len() >= Self::MOST {
            return Err(FoldingFault::Full);
        }
        if !self.ends_below(from) {
            return Err(FoldingFault::NotAbove);
        }
        if self.chains(from, to) {
            return Err(FoldingFault::Chained);
        }
        Ok(())
    }

    // Whether every `from` is below `n`.
    fn ends_below(&self, n: u32) -> bool
        ensures { result ≡ above_all (froms (foldings self.now)) n }
    {
        self.entries.iter().all(|entry| entry.from < n)
    }

    // Whether `from` becomes a value that is folded too, or is one that another becomes.
    fn chains(&self, from: u32, to: u32) -> bool
        ensures { result ≡ chains (foldings self.now) from to }
    {
        from == to
            || self
                .entries
                .iter()
                .any(|entry| entry.from == to || entry.to == from)
    }
}
