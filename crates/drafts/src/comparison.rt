// Comparisons: conditions whose kind is known.
ghost use Rattle.std.specs.Prelude.{◌≡◌};
ghost use Rattle.drafts.specs.Comparisons.{ComparisonOf, comparison_holds};

use crate::conditions::{equal, share};
use records::{Condition, Kind, UnknownKind};
use tables::{Table, ValueList};

// A left property compared with a right one.
#[derive(Clone, Copy, PartialEq, Eq, Debug)]
pub struct Comparison {
    pub kind: Kind,
    pub left: usize,
    pub right: usize,
}

impl TryFrom<Condition> for Comparison {
    type Error = UnknownKind;

    ghost try_from_gives = { ComparisonOf };

    fn try_from(condition: Condition) -> Result<Comparison, UnknownKind> {
        Ok(Comparison {
            kind: Kind::try_from(condition.kind)?,
            left: condition.left as usize,
            right: condition.right as usize,
        })
    }
}

impl Comparison {
    // Whether it holds for subject `s` of `left` and subject `t` of `right`.
    pub fn holds<L: Table, R: Table>(self, left: &L, right: &R, s: usize, t: usize) -> bool
        ensures { result ≡ comparison_holds (L.Table.meaning left.now) (R.Table.meaning right.now) self s t }
    {
        let left = ValueList {
            table: left,
            subject: s,
            property: self.left,
        };
        let right = ValueList {
            table: right,
            subject: t,
            property: self.right,
        };
        match self.kind {
            Kind::Equal => equal(&left, &right),
            Kind::Share => share(&left, &right),
        }
    }
}
