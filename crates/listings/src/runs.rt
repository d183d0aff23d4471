// Whole runs: one listing over a context, any list of calls, and every answer with its buffer.
ghost use Rattle.std.specs.Prelude.{◌≡◌, ◌+◌, ◌≤◌, [], map, vec_len, vec_capacity, MatchResult};
ghost use Rattle.listings.specs.Calls.{with_space};
ghost use Rattle.listings.specs.Replies.{reply as reply_by, replies as replies_by};
ghost use Rattle.listings.specs.Runs.{Ran};
ghost use Rattle.listings.specs.View.{relation_of, level as level_of, ask_of, reply_of, WentOn};

use crate::call::{Answer, Call};
use crate::listing::{Listing, Unstarted, start};
use contexts::Context;
use std::alloc::Global;

// The context of a run, and the answers to its calls in their order.
pub struct Answered<C> {
    pub context: C,
    pub answers: Vec<Answer>,
}

// The context and the calls of a run for which there was no memory, as they were given.
pub struct Unanswered<C> {
    pub context: C,
    pub calls: Vec<Call>,
}

impl<C> Listing<C> {
    // Makes one call.
    pub fn answer(&mut self, call: Call) -> Answer
        ensures went { WentOn self.old self.new (with_space (ask_of call)) }
        ensures reply { reply_of result ≡ reply_by (relation_of self.old) (level_of self.old) (ask_of call) }
    {
        match call {
            Call::Take { at, mut buffer } => {
                let taken = self.take(at, buffer.as_mut_slice());
                Answer::Took { taken, buffer }
            }
            Call::Page { from, mut buffer } => {
                let count = self.page(from, buffer.as_mut_slice());
                Answer::Paged { count, buffer }
            }
            Call::Tally => Answer::Tallied(self.tally()),
            Call::Total => Answer::Totalled(self.total()),
        }
    }

    // Makes the calls in their order. There is memory for every answer. A loop, since a chain tells nothing of a listing that its closure changed.
    fn answer_all(&mut self, calls: Vec<Call>, mut answers: Vec<Answer>) -> Vec<Answer>
        requires space { vec_len answers + vec_len calls ≤ vec_capacity answers }
        requires none { answers.items ≡ [] }
        ensures same { self.new.context ≡ self.old.context }
        ensures replies { map reply_of result.items ≡ replies_by (relation_of self.old) (level_of self.old) (map ask_of calls.items) }
    {
        for call in calls {
            answers.push_reserved(self.answer(call));
        }
        answers
    }
}

// Starts one listing over the context, makes the calls, and closes it. Memory can be wanting only before the first call.
pub fn run<C: Context>(
    heap: Global,
    context: C,
    calls: Vec<Call>,
) -> Result<Answered<C>, Unanswered<C>>
    ensures { MatchResult result (λ d. (d.context ≡ context) × Ran (C.Context.relation context) calls.items d.answers.items) (λ e. (e.context ≡ context) × (e.calls ≡ calls)) }
{
    let Ok(answers) = Vec::with_capacity(heap, calls.len()) else {
        return Err(Unanswered { context, calls });
    };
    // Both ways hand the context back, so `?` does not do here.
    match start(heap, context) {
        Ok(mut listing) => {
            let answers = listing.answer_all(calls, answers);
            let context = listing.close();
            Ok(Answered { context, answers })
        }
        Err(Unstarted { context }) => Err(Unanswered { context, calls }),
    }
}
