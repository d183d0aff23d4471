// The calls on a draft.
ghost use Rattle.std.specs.Prelude.{◌≡◌, [], is_ok, if◌then◌else◌, MatchResult};
ghost use Rattle.records.specs.Refusals.{told};
ghost use Rattle.records.specs.Questions.{Checked, answer_by};
ghost use Rattle.drafts.specs.Comparisons.{comparison_of};
ghost use Rattle.drafts.specs.Drafting.{comparison_fault, draft_fault, draft_refusal, with_more};

use super::{Draft, DraftFault, Undrafted};
use crate::comparison::Comparison;
use records::Condition;
use std::alloc::Global;
use tables::Table;

// The most comparisons that a draft takes.
const MOST: usize = 64;

impl<L: Table, R: Table> Draft<L, R> {
    // The empty draft over two tables, which come back where there is no memory.
    pub fn new(heap: Global, left: L, right: R) -> Result<Draft<L, R>, Undrafted<L, R>>
        ensures { MatchResult result (λ d. (d.left ≡ left) × (d.right ≡ right) × (d.comparisons.items ≡ [])) (λ e. (e.left ≡ left) × (e.right ≡ right)) }
    {
        let Ok(comparisons) = Vec::with_capacity(heap, MOST) else {
            return Err(Undrafted { left, right });
        };
        Ok(Draft {
            left,
            right,
            comparisons,
        })
    }

    // Adds a condition at the end.
    pub fn add(&mut self, condition: Condition) -> Result<(), DraftFault>
        ensures answer { told draft_refusal result ≡ answer_by (draft_fault (L.Table.meaning self.old.left).properties (R.Table.meaning self.old.right).properties self.old.comparisons.items condition) }
        ensures after { self.new.comparisons.items ≡ (if is_ok result then with_more self.old.comparisons.items (comparison_of condition) else self.old.comparisons.items) }
        ensures left { self.new.left ≡ self.old.left }
        ensures right { self.new.right ≡ self.old.right }
    {
        let comparison = Comparison::try_from(condition)?;
        self.check(comparison)?;
        self.comparisons.push_reserved(comparison);
        Ok(())
    }

    // The comparisons, in the order in which they were added.
    pub fn comparisons(&self) -> &[Comparison]
        ensures { result.now ≡ self.now.comparisons.items }
    {
        self.comparisons.as_slice()
    }

    // The tables, as they were given.
    pub fn into_tables(self) -> (L, R)
        ensures { (result.0 ≡ self.left) × (result.1 ≡ self.right) }
    {
        let Draft {
            left,
            right,
            comparisons: _,
        } = self;
        (left, right)
    }

    // Whether one more comparison may be added.
    fn check(&self, comparison: Comparison) -> Result<(), DraftFault>
        ensures { Checked draft_refusal (comparison_fault (L.Table.meaning self.now.left).properties (R.Table.meaning self.now.right).properties self.now.comparisons.items comparison) result }
    {
        if comparison.left >= self.left.properties() {
            return Err(DraftFault::UnknownLeft);
        }
        if comparison.right >= self.right.properties() {
            return Err(DraftFault::UnknownRight);
        }
        if self.comparisons().contains(&comparison) {
            return Err(DraftFault::Repeated);
        }
        if self.comparisons.len() >= MOST {
            return Err(DraftFault::Full);
        }
        Ok(())
    }
}
