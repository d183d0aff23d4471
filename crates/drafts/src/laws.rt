// What the comparisons of lists come to: the contract is the laws, and there is nothing to do.
ghost use Rattle.drafts.specs.Laws.{EqualListsShare, SharingIsMutual, EqualityIsMutual, SharingIsOfSets, EqualityIsOfSets, EqualListsHaveTheSameValues, EmptyListsAreNotEqual};

// Lists are compared as sets, and two empty ones are not equal.
pub fn conditions_compare_sets()
    ensures implied { EqualListsShare }
    ensures turned { SharingIsMutual }
    ensures both { EqualityIsMutual }
    ensures sharing { SharingIsOfSets }
    ensures equality { EqualityIsOfSets }
    ensures same { EqualListsHaveTheSameValues }
    ensures none { EmptyListsAreNotEqual }
{}
