// The calls on a listing. None of them asks its context anything, and none allocates.
ghost use Rattle.std.specs.Prelude.{◌≡◌};
ghost use Rattle.listings.specs.Calls.{take_at, page_from, tally_now, total_now, with_space};
ghost use Rattle.listings.specs.Replies.{reply as reply_by};
ghost use Rattle.listings.specs.View.{relation_of, level as level_of, taken_of, paged_of, tally_of, total_of, WentOn};

use super::Listing;
use super::paging::{LINK, write_links};
use crate::call::{Taken, Tally};
use crate::fault::{PageFault, TakeFault, TotalFault};
use records::{Candidate, Record};

impl<C> Listing<C> {
    // Writes the next candidate's record at the offset, or says that every candidate was handed out.
    pub fn take(&mut self, at: usize, out: &mut [u8]) -> Result<Taken, TakeFault>
        ensures went { WentOn self.old self.new (with_space (take_at at out.old)) }
        ensures reply { taken_of result out.new ≡ reply_by (relation_of self.old) (level_of self.old) (take_at at out.old) }
    {
        if at > out.len() || out.len() - at < Candidate::stride() {
            return Err(TakeFault::NoSpace);
        }
        let Some(candidate) = self.advance() else {
            return Ok(Taken::Ended);
        };
        candidate.put(&mut out[at..]);
        Ok(Taken::Handed)
    }

    // Writes links of the candidate handed out last, from link number `from` on, as many as fit; answers how many.
    pub fn page(&self, from: usize, out: &mut [u8]) -> Result<usize, PageFault>
        ensures { paged_of result out.new ≡ reply_by (relation_of self.now) (level_of self.now) (page_from from out.old) }
    {
        if self.tally.handed == 0 {
            return Err(PageFault::NoCandidate);
        }
        let links = self.copy.count_links(self.tally.last).links as usize;
        if from > links {
            return Err(PageFault::PastLinks);
        }
        if from != links && out.len() < LINK {
            return Err(PageFault::NoSpace);
        }
        let count = (links - from).min(out.len() / LINK);
        let pairs = self.copy.pairs.as_slice();
        write_links(pairs, self.tally.last, from, count, out);
        Ok(count)
    }

    // How far the listing has come.
    pub fn tally(&self) -> Tally
        ensures { tally_of result ≡ reply_by (relation_of self.now) (level_of self.now) tally_now }
    {
        self.tally
    }

    // How many candidates there are, once a take has said "ended".
    pub fn total(&self) -> Result<u64, TotalFault>
        ensures { total_of result ≡ reply_by (relation_of self.now) (level_of self.now) total_now }
    {
        if self.tally.ended {
            Ok(self.tally.handed)
        } else {
            Err(TotalFault::NotEnded)
        }
    }

    // Ends the listing, and hands back what it stood on.
    pub fn close(self) -> C
        ensures { result ≡ self.context }
    {
        let Listing {
            context,
            copy: _,
            tally: _,
        } = self;
        context
    }
}
