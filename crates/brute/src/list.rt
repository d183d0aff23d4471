// Lists of values, asked through their tables and compared as sets. The enumeration has its own, so that it leans on nothing that it checks.
use tables::Table;

// The list at a subject and a property.
#[derive(Drop)]
pub struct List<'a, T> {
    table: &'a T,
    subject: usize,
    property: usize,
}

impl<'a, T: Table> List<'a, T> {
    pub fn new(table: &'a T, subject: usize, property: usize) -> List<'a, T> {
        List {
            table,
            subject,
            property,
        }
    }

    fn len(&self) -> usize {
        self.table.count(self.subject, self.property)
    }

    fn at(&self, i: usize) -> Option<u32> {
        self.table.value(self.subject, self.property, i)
    }

    fn has(&self, value: u32) -> bool {
        (0..self.len()).any(|i| self.at(i) == Some(value))
    }
}

// Whether a value is in both lists.
pub fn share<L: Table, R: Table>(left: &List<'_, L>, right: &List<'_, R>) -> bool {
    (0..left.len()).any(|i| left.at(i).is_some_and(|value| right.has(value)))
}

// Whether every value of the first list is in the second.
fn lies_within<L: Table, R: Table>(left: &List<'_, L>, right: &List<'_, R>) -> bool {
    (0..left.len()).all(|i| left.at(i).is_some_and(|value| right.has(value)))
}

// Whether both lists have the same values, and at least one.
pub fn equal<L: Table, R: Table>(left: &List<'_, L>, right: &List<'_, R>) -> bool {
    left.len() > 0 && lies_within(left, right) && lies_within(right, left)
}
