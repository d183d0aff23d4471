// The row book of a draft, in words of its own.
ghost use Rattle.std.specs.Prelude.{◌≡◌, IfOk};
ghost use Rattle.contexts.specs.BookMaking.{relation_of_book};
ghost use Rattle.drafts.specs.Live.{live};

use super::Draft;
use contexts::RowBook;
use std::alloc::{AllocError, Global};
use tables::Table;

impl<L: Table, R: Table> Draft<L, R> {
    // Freezes the draft and opens the book: it means what the draft means when it is started.
    pub fn book(&self, heap: Global) -> Result<RowBook, AllocError>
        ensures { IfOk result (λ b. relation_of_book b ≡ live (L.Table.meaning self.now.left) (R.Table.meaning self.now.right) self.now.comparisons.items) }
    {
        let lefts = self.left.subjects();
        let rights = self.right.subjects();
        let mut words = vec![in heap; 0; lefts + rights + lefts * rights]?;
        self.freeze(words.as_mut_slice()).unwrap();
        Ok(RowBook::open(words, lefts, rights, self.comparisons.len()).unwrap())
    }
}
