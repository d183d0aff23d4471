// One run over the row book of a draft.
ghost use Rattle.std.specs.Prelude.{◌≡◌, MatchResult};
ghost use Rattle.runs.specs.Tables.{RanOver};

use drafts::Draft;
use listings::{Answered, Call, Unanswered, run};
use std::alloc::Global;
use tables::Table;

// Freezes the draft to its row book, takes the tables back, and makes the calls on one listing over the book: they are answered as over the tables.
pub fn run_over_book<L: Table, R: Table>(
    heap: Global,
    draft: Draft<L, R>,
    calls: Vec<Call>,
) -> Result<Answered<(L, R)>, Unanswered<(L, R)>>
    ensures { MatchResult result (λ d. (d.context ≡ (draft.left, draft.right)) × RanOver (L.Table.meaning draft.left) (R.Table.meaning draft.right) draft.comparisons.items calls.items d.answers.items) (λ e. (e.context ≡ (draft.left, draft.right)) × (e.calls ≡ calls)) }
{
    let made = draft.book(heap);
    let context = draft.into_tables();
    let Ok(book) = made else {
        return Err(Unanswered { context, calls });
    };
    // Both ways hand the tables back, so `?` does not do here.
    match run(heap, book, calls) {
        Ok(
            Answered {
                context: _,
                answers,
            },
        ) => Ok(Answered { context, answers }),
        Err(Unanswered { context: _, calls }) => Err(Unanswered { context, calls }),
    }
}
