// Counting the links of a code, in one pass over the pairs that have one.
ghost use Rattle.std.specs.Prelude.{◌≡◌, ◌^◌, ◌<◌, ◌≤◌, length};
ghost use Rattle.listings.specs.Copied.{linking, marked_count, marks_set, left_of, right_of};
ghost use Rattle.listings.specs.Counts.{candidate_body};
ghost use Rattle.listings.specs.Held.{held};

use super::copying::Copied;
use records::Candidate;

// The most subjects of a side.
const MOST: usize = 2048;

// How many links there are, and how many subjects of each side have one.
#[derive(Clone, Copy, PartialEq, Eq, Debug)]
pub(super) struct LinkCounts {
    pub(super) links: u32,
    pub(super) left: u32,
    pub(super) right: u32,
}

impl Copied {
    // Counts those of the pairs that have every condition of `x`. A loop, since a chain whose closure counts and marks leaves the proof knowing nothing of both.
    pub(super) fn count_links(&self, x: u64) -> LinkCounts
        ensures links { result.links ≡ length (linking x self.now.pairs.items) }
        ensures left { result.left ≡ marked_count left_of (linking x self.now.pairs.items) }
        ensures right { result.right ≡ marked_count right_of (linking x self.now.pairs.items) }
    {
        let mut lefts = [false; MOST];
        let mut rights = [false; MOST];
        let mut links: u32 = 0;
        for pair in &self.pairs {
            if pair.code & x == x {
                links += 1;
                lefts[pair.left as usize] = true;
                rights[pair.right as usize] = true;
            }
        }
        LinkCounts {
            links,
            left: count_set(&lefts),
            right: count_set(&rights),
        }
    }

    // What is told of the code `x`.
    pub(super) fn examine(&self, x: u64) -> Candidate
        requires some { 0 < x }
        requires below { x < 2 ^ self.now.width.conditions }
        ensures { result ≡ candidate_body (held self.now) x }
    {
        let counts = self.count_links(x);
        Candidate {
            code: x,
            links: counts.links,
            left_linked: counts.left,
            right_linked: counts.right,
            left_present: count_set(self.left_present.as_slice()),
            right_present: count_set(self.right_present.as_slice()),
            conditions: x.count_ones(),
        }
    }
}

// How many marks are set.
fn count_set(marks: &[bool]) -> u32
    requires { length marks.now ≤ 2048 }
    ensures { result ≡ marks_set marks.now }
{
    // As a sum and no `filter` and `count`: these take one mark at a time, and a take counts 4,096 of them at least.
    marks.iter().map(|mark| u32::from(*mark)).sum()
}
