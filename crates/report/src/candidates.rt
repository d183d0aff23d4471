// The lines of a listing's candidates, one take after another.
ghost use Rattle.listings.specs.View.{relation_of, level as level_of, WentOn};
ghost use Rattle.report.specs.Candidates.{Told};

use crate::lines::candidate_line;
use listings::{Listing, Taken};
use records::read;
use std::alloc::{AllocError, Global};

// How many bytes a candidate takes.
const SIZE: usize = 32;

// Takes the next candidate and gives its line; nothing where every candidate was handed out.
pub fn next_line<C>(heap: Global, listing: &mut Listing<C>) -> Result<Option<String>, AllocError>
    ensures went { WentOn listing.old listing.new 1 }
    ensures told { Told (relation_of listing.old) (level_of listing.old) result }
{
    let mut record = [0; SIZE];
    match listing.take(0, &mut record).unwrap() {
        Taken::Handed => {
            let candidate = read(&record, 0).unwrap();
            Ok(Some(candidate_line(heap, &candidate)?))
        }
        Taken::Ended => Ok(None),
    }
}
