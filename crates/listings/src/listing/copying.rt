// What a listing keeps of its context.
ghost use Rattle.std.specs.Prelude.{◌≡◌, true};
ghost use Rattle.contexts.specs.Pairs.{coded_pairs};
ghost use Rattle.listings.specs.Copied.{copied, Few, all_below, same_members, codes_of};

use contexts::CodedPair;
use lattice::Width;

// Who is present on each side, the pairs that have a code, and each code once.
#[derive(Drop)]
pub(super) struct Copied {
    pub(super) left_present: Vec<bool>,
    pub(super) right_present: Vec<bool>,
    pub(super) width: Width,
    pub(super) pairs: Vec<CodedPair>,
    pub(super) distinct: Vec<u64>,
    ghost few: { Few left_present.items right_present.items },
    ghost coded: { pairs.items ≡ coded_pairs (copied left_present.items right_present.items width.conditions pairs.items) },
    ghost below: { all_below width.conditions pairs.items ≡ true },
    ghost known: { same_members (codes_of pairs.items) distinct.items ≡ true },
}
