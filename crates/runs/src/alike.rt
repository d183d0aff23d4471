// Two runs of the same calls, each over two tables of its own.
ghost use Rattle.std.specs.Prelude.{◌≡◌, map, length, IfOk, MatchResult};
ghost use Rattle.listings.specs.View.{ask_of};
ghost use Rattle.runs.specs.Tables.{RanOver, AnswerAlike};

use crate::over_tables::run_over_tables;
use drafts::Draft;
use listings::{Answered, Call, Unanswered};
use std::alloc::{AllocError, Global};
use tables::Table;

// Two runs, each with its tables as they were given.
pub struct BothAnswered<L, R, M, N> {
    pub one: Answered<(L, R)>,
    pub other: Answered<(M, N)>,
}

// The tables of two runs for which there was no memory, as they were given, and the calls.
pub struct BothUnanswered<L, R, M, N> {
    pub one: (L, R),
    pub other: (M, N),
    pub calls: Vec<Call>,
}

// Makes the same calls, with equal buffers, over either draft.
pub fn run_alike<L: Table, R: Table, M: Table, N: Table>(
    heap: Global,
    one: Draft<L, R>,
    other: Draft<M, N>,
    calls: Vec<Call>,
) -> Result<BothAnswered<L, R, M, N>, BothUnanswered<L, R, M, N>>
    ensures one { MatchResult result (λ d. (d.one.context ≡ (one.left, one.right)) × RanOver (L.Table.meaning one.left) (R.Table.meaning one.right) one.comparisons.items calls.items d.one.answers.items) (λ e. (e.one ≡ (one.left, one.right)) × (map ask_of e.calls.items ≡ map ask_of calls.items)) }
    ensures other { MatchResult result (λ d. (d.other.context ≡ (other.left, other.right)) × RanOver (M.Table.meaning other.left) (N.Table.meaning other.right) other.comparisons.items calls.items d.other.answers.items) (λ e. e.other ≡ (other.left, other.right)) }
    ensures alike { IfOk result (λ d. AnswerAlike (L.Table.meaning one.left) (R.Table.meaning one.right) (M.Table.meaning other.left) (N.Table.meaning other.right) one.comparisons.items other.comparisons.items d.one.answers.items d.other.answers.items) }
{
    let Ok(again) = copy_calls(heap, calls.as_slice()) else {
        return Err(BothUnanswered {
            one: one.into_tables(),
            other: other.into_tables(),
            calls,
        });
    };
    // An error takes the other draft's tables along, so `?` does not do here.
    let Answered { context, answers } = match run_over_tables(heap, one, calls) {
        Ok(answered) => answered,
        Err(Unanswered { context, calls }) => {
            return Err(BothUnanswered {
                one: context,
                other: other.into_tables(),
                calls,
            });
        }
    };
    match run_over_tables(heap, other, again) {
        Ok(other) => Ok(BothAnswered {
            one: Answered { context, answers },
            other,
        }),
        Err(
            Unanswered {
                context: other,
                calls,
            },
        ) => Err(BothUnanswered {
            one: context,
            other,
            calls,
        }),
    }
}

// The same calls, with buffers of their own. A loop, since of `try_collect` the check does not find that the copies ask the same.
fn copy_calls(heap: Global, calls: &[Call]) -> Result<Vec<Call>, AllocError>
    ensures { IfOk result (λ v. map ask_of v.items ≡ map ask_of calls.now) }
{
    let mut copies = Vec::new(heap);
    for call in calls {
        copies.push(copy_call(heap, call)?)?;
    }
    Ok(copies)
}

fn copy_call(heap: Global, call: &Call) -> Result<Call, AllocError>
    ensures { IfOk result (λ c. ask_of c ≡ ask_of call.now) }
{
    match call {
        Call::Take { at, buffer } => Ok(Call::Take {
            at: *at,
            buffer: Vec::from_slice(heap, buffer.as_slice())?,
        }),
        Call::Page { from, buffer } => Ok(Call::Page {
            from: *from,
            buffer: Vec::from_slice(heap, buffer.as_slice())?,
        }),
        Call::Tally => Ok(Call::Tally),
        Call::Total => Ok(Call::Total),
    }
}
