// From one candidate to the next.
ghost use Rattle.std.specs.Prelude.{◌≡◌, ◌<◌, ◌≤◌, MatchOption, slice_index};
ghost use Rattle.lattice.specs.Closed.{next_closed};
ghost use Rattle.listings.specs.Candidates.{candidates};
ghost use Rattle.listings.specs.Counts.{candidate_body};
ghost use Rattle.listings.specs.Replies.{candidate_count};
ghost use Rattle.listings.specs.View.{relation_of, level as level_of, WentOn};

use super::Listing;
use lattice::next;
use records::Candidate;

impl<C> Listing<C> {
    // The least closed code above the last one. Sets that no pair has as its code are among them.
    fn step(&self) -> Option<u64>
        ensures { result ≡ next_closed self.now.copy.width.conditions self.now.copy.distinct.items self.now.tally.last }
    {
        let copy = &self.copy;
        next(copy.distinct.as_slice(), copy.width, self.tally.last)
    }

    // Goes on to the next candidate; where there is none, the listing has ended.
    pub(super) fn advance(&mut self) -> Option<Candidate>
        ensures went { WentOn self.old self.new 1 }
        ensures found { MatchOption result (candidate_count (relation_of self.old) ≤ level_of self.old) (λ x. (level_of self.old < candidate_count (relation_of self.old)) × (x ≡ candidate_body (relation_of self.old) (slice_index (candidates (relation_of self.old)) (level_of self.old)))) }
    {
        if self.tally.ended {
            return None;
        }
        let examined = self.step().map(|x| self.copy.examine(x));
        let Some(candidate) = examined.filter(|candidate| candidate.links > 0) else {
            self.tally.ended = true;
            return None;
        };
        self.tally.last = candidate.code;
        self.tally.handed += 1;
        Some(candidate)
    }
}
