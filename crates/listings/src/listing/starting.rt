// Starting a listing: the context is asked once, and then no more.
ghost use Rattle.std.specs.Prelude.{◌≡◌, true, IfOk, MatchResult};
ghost use Rattle.listings.specs.Copied.{same_members, codes_of};
ghost use Rattle.listings.specs.Held.{held};
ghost use Rattle.listings.specs.View.{relation_of, level};

use super::copying::Copied;
use super::{Listing, Unstarted};
use crate::call::Tally;
use contexts::{CodedPair, Context};
use lattice::Width;
use std::alloc::{AllocError, Global};

// A listing over the context, which has handed out nothing. Where there is no memory, the context comes back.
pub fn start<C: Context>(heap: Global, context: C) -> Result<Listing<C>, Unstarted<C>>
    ensures { MatchResult result (λ l. (l.context ≡ context) × (relation_of l ≡ C.Context.relation context) × (level l ≡ 0)) (λ e. e.context ≡ context) }
{
    let Ok(copy) = copy(heap, &context) else {
        return Err(Unstarted { context });
    };
    Ok(Listing {
        context,
        copy,
        tally: Tally::default(),
    })
}

// Asks the context for all that the listing needs.
fn copy<C: Context>(heap: Global, context: &C) -> Result<Copied, AllocError>
    ensures { IfOk result (λ copy. held copy ≡ C.Context.relation context.now) }
{
    let left_present = (0..context.lefts())
        .map(|s| context.left_present(s))
        .collect(heap)?;
    let right_present = (0..context.rights())
        .map(|t| context.right_present(t))
        .collect(heap)?;
    let pairs = context.coded_pairs(heap)?;
    let distinct = distinct_codes(heap, pairs.as_slice())?;
    Ok(Copied {
        left_present,
        right_present,
        width: Width {
            conditions: context.conditions() as u32,
        },
        pairs,
        distinct,
    })
}

// The codes of the pairs, each once: sorting brings equal ones together.
fn distinct_codes(heap: Global, pairs: &[CodedPair]) -> Result<Vec<u64>, AllocError>
    ensures { IfOk result (λ v. same_members (codes_of pairs.now) v.items ≡ true) }
{
    let mut codes = codes(heap, pairs)?;
    codes.sort_unstable();
    codes.dedup();
    // The listing keeps the codes, and not the room for the pairs that they came from.
    codes.shrink_to_fit();
    Ok(codes)
}

fn codes(heap: Global, pairs: &[CodedPair]) -> Result<Vec<u64>, AllocError>
    ensures { IfOk result (λ v. v.items ≡ codes_of pairs.now) }
{
    pairs.iter().map(|pair| pair.code).collect(heap)
}
