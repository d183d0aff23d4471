// One run over the two tables of a draft.
ghost use Rattle.std.specs.Prelude.{◌≡◌, MatchResult};
ghost use Rattle.runs.specs.Tables.{RanOver};

use drafts::Draft;
use listings::{Answered, Call, Unanswered, run};
use std::alloc::Global;
use tables::Table;

// Starts the draft and one listing over it, makes the calls, and closes both: the tables come back as they were given.
pub fn run_over_tables<L: Table, R: Table>(
    heap: Global,
    draft: Draft<L, R>,
    calls: Vec<Call>,
) -> Result<Answered<(L, R)>, Unanswered<(L, R)>>
    ensures { MatchResult result (λ d. (d.context ≡ (draft.left, draft.right)) × RanOver (L.Table.meaning draft.left) (R.Table.meaning draft.right) draft.comparisons.items calls.items d.answers.items) (λ e. (e.context ≡ (draft.left, draft.right)) × (e.calls ≡ calls)) }
{
    // Both ways hand the tables back, so `?` does not do here.
    match run(heap, draft.start(), calls) {
        Ok(Answered { context, answers }) => Ok(Answered {
            context: context.into_tables(),
            answers,
        }),
        Err(Unanswered { context, calls }) => Err(Unanswered {
            context: context.into_tables(),
            calls,
        }),
    }
}
