// Two lists of values, compared as sets. Loops, since of `any` and `all` over a range the closure's answer of a table is lost to the proof.
// Each reads a list to its end, so that its length, which costs as much as an entry, is not asked too.
// Lists in memory have loops of their own (draft/lists.rt): hot loops run over plain slices.
ghost use Rattle.std.specs.Prelude.{◌≡◌};
ghost use Rattle.drafts.specs.Conditions.{shares, within, equals};

use tables::{Table, ValueList};

// Whether some value of one list is in the other.
pub fn share<L: Table, R: Table>(left: &ValueList<'_, L>, right: &ValueList<'_, R>) -> bool
    ensures { result ≡ shares ((L.Table.meaning left.now.table.now).values left.now.subject left.now.property) ((R.Table.meaning right.now.table.now).values right.now.subject right.now.property) }
{
    let mut i = 0;
    while let Some(v) = left.get(i) {
        if right.contains(v) {
            return true;
        }
        i += 1;
    }
    false
}

// Whether both lists have the same values, and at least one.
pub fn equal<L: Table, R: Table>(left: &ValueList<'_, L>, right: &ValueList<'_, R>) -> bool
    ensures { result ≡ equals ((L.Table.meaning left.now.table.now).values left.now.subject left.now.property) ((R.Table.meaning right.now.table.now).values right.now.subject right.now.property) }
{
    left.len() > 0 && lie_within(left, right) && lie_within(right, left)
}

// Whether every value of the first list is in the second.
fn lie_within<L: Table, R: Table>(left: &ValueList<'_, L>, right: &ValueList<'_, R>) -> bool
    ensures { result ≡ within ((L.Table.meaning left.now.table.now).values left.now.subject left.now.property) ((R.Table.meaning right.now.table.now).values right.now.subject right.now.property) }
{
    let mut i = 0;
    while let Some(v) = left.get(i) {
        if !right.contains(v) {
            return false;
        }
        i += 1;
    }
    true
}
