// The questions that every context answers by its relation.
ghost use Rattle.std.specs.Prelude.{◌≡◌, IfOk};
ghost use Rattle.contexts.specs.Pairs.{coded_pairs};
ghost use Rattle.contexts.specs.Relation.{Relation, Sound};

use crate::coded_pair::CodedPair;
use std::alloc::{AllocError, Global};

// A context. Any number may be asked: out of range is absent, and has code 0.
// Each side has calls of its own, since `code` has the sides by place and a side as an argument would read worse at each use.
pub trait Context {
    ghost relation: { Self → Relation };

    // How many left subject numbers there are.
    fn lefts(&self) -> usize
        ensures { result ≡ (relation self.now).lefts };

    // How many right subject numbers there are.
    fn rights(&self) -> usize
        ensures { result ≡ (relation self.now).rights };

    // How many conditions there are.
    fn conditions(&self) -> usize
        ensures { result ≡ (relation self.now).conditions };

    fn left_present(&self, s: usize) -> bool
        ensures { result ≡ (relation self.now).left_present s };

    fn right_present(&self, t: usize) -> bool
        ensures { result ≡ (relation self.now).right_present t };

    // The code of the conditions that hold for left subject `s` and right subject `t`.
    fn code(&self, s: usize, t: usize) -> u64
        ensures { result ≡ (relation self.now).code s t };

    // The pairs for which a condition holds, each with its code, ascending by the left, then by the right subject.
    fn coded_pairs(&self, heap: Global) -> Result<Vec<CodedPair>, AllocError>
        ensures { IfOk result (λ v. v.items ≡ coded_pairs (relation self.now)) }
    {
        let mut pairs = Vec::new(heap);
        // By numbers, as these are what a context is asked by.
        for s in 0..self.lefts() {
            for t in 0..self.rights() {
                let code = self.code(s, t);
                if code != 0 {
                    pairs.push(CodedPair {
                        left: s as u32,
                        right: t as u32,
                        code,
                    })?;
                }
            }
        }
        Ok(pairs)
    }

    ghost sound: { (c : Self) → Sound (relation c) };
}
