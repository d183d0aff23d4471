// What the rules of the layers come to: each function's contract is a law, and there is nothing to do.
ghost use Rattle.layers.specs.Held.{foldings};
ghost use Rattle.layers.specs.Laws.{FoldingSettles, KindNarrows, KindSettles, PickFollows};

use crate::folding_list::FoldingList;

// Folding twice by the same list is folding once.
pub fn folding_twice_is_folding_once(list: &FoldingList)
    ensures { FoldingSettles (foldings list.now) }
{}

// The kind layer makes nobody present, and leaves the lists of whoever stays present as they are.
pub fn kind_makes_nobody_present()
    ensures { KindNarrows }
{}

// The same kind layer twice is that layer once.
pub fn kind_twice_is_kind_once()
    ensures { KindSettles }
{}

// A pick has the lists of its property below, and empty ones where that is out of range.
pub fn picks_follow_the_table_below()
    ensures { PickFollows }
{}
