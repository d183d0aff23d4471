// Rows of codes: those of one left subject with every right one.
ghost use Rattle.std.specs.Prelude.{◌≡◌, ◌^◌, ◌<◌, ◌≤◌, ◌++◌, map, length, IfOk, OnOk};
ghost use Rattle.std.specs.List.{flat_map};
ghost use Rattle.lattice.specs.Sets.{range};
ghost use Rattle.drafts.specs.Preparing.{coded_from, prepared_code};

use super::prepared::PreparedDraft;
use contexts::CodedPair;
use std::alloc::{AllocError, Global};

impl PreparedDraft {
    // The pairs that have a code, row by row.
    pub(super) fn coded_pairs(&self, heap: Global) -> Result<Vec<CodedPair>, AllocError>
        ensures { IfOk result (λ v. v.items ≡ flat_map (λ s. coded_from s 0 (map (prepared_code self.now.comparisons.items s) (range self.now.rights))) (range self.now.lefts)) }
    {
        let mut codes = vec![in heap; 0; self.rights]?;
        let row = codes.as_mut_slice();
        let mut pairs = Vec::new(heap);
        // Lists are asked for by the number of their subject.
        for s in 0..self.lefts {
            self.write_row(s, row);
            push_row(&mut pairs, s, row)?;
        }
        Ok(pairs)
    }

    // Writes the codes of left subject `s`, comparison by comparison, so that one left list meets all right ones in turn.
    fn write_row(&self, s: usize, row: &mut [u64])
        requires { (s < self.now.lefts) × (length row.old ≡ self.now.rights) }
        ensures { row.new ≡ map (prepared_code self.now.comparisons.items s) (range self.now.rights) }
    {
        row.fill(0);
        for comparison in &self.comparisons {
            comparison.add_to(s, row);
        }
    }
}

// Adds the pairs of left subject `s` that have a code in `row`.
fn push_row(pairs: &mut Vec<CodedPair>, s: usize, row: &[u64]) -> Result<(), AllocError>
    requires { (s < 2 ^ 32) × (length row.now ≤ 2 ^ 32) }
    ensures { OnOk result (pairs.new.items ≡ pairs.old.items ++ coded_from s 0 row.now) }
{
    for (t, &code) in row.iter().enumerate() {
        if code != 0 {
            pairs.push(CodedPair {
                left: s as u32,
                right: t as u32,
                code,
            })?;
        }
    }
    Ok(())
}
