// One list of values, asked through its table.
ghost use Rattle.std.specs.Prelude.{◌≡◌, length};
ghost use Rattle.std.specs.List.{slice_get};
ghost use Rattle.tables.specs.Meaning.{contains};

use crate::table::Table;

// The list of a table at a subject and a property.
#[derive(Drop)]
pub struct ValueList<'a, T> {
    pub table: &'a T,
    pub subject: usize,
    pub property: usize,
}

impl<'a, T: Table> ValueList<'a, T> {
    // How long the list is.
    pub fn len(&self) -> usize
        ensures { result ≡ length ((T.Table.meaning self.now.table.now).values self.now.subject self.now.property) }
    {
        self.table.count(self.subject, self.property)
    }

    // Entry number `i`, or nothing where there are fewer.
    pub fn get(&self, i: usize) -> Option<u32>
        ensures { result ≡ slice_get ((T.Table.meaning self.now.table.now).values self.now.subject self.now.property) i }
    {
        self.table.value(self.subject, self.property, i)
    }

    // Whether `v` is in the list.
    pub fn contains(&self, v: u32) -> bool
        ensures { result ≡ contains ((T.Table.meaning self.now.table.now).values self.now.subject self.now.property) v }
    {
        // Read to its end, so that its length is not asked too: that costs as much as an entry, and in a pile of kind layers much more.
        // As `any` over the entries, the closure's answer of the table is lost to the proof.
        let mut i = 0;
        while let Some(x) = self.get(i) {
            if x == v {
                return true;
            }
            i += 1;
        }
        false
    }
}
