// The questions to a row book.
ghost use Rattle.contexts.specs.BookMaking.{relation_of_book};
ghost use Rattle.contexts.specs.Books.{facts, book_sound};

use super::{PRESENT, RowBook};
use crate::context::Context;

impl Context for RowBook {
    ghost relation = { relation_of_book };

    ghost sound = { λ c. book_sound c.words.items c.lefts c.rights c.conditions (facts c.words.items c.lefts c.rights c.conditions c.allowed) };

    fn lefts(&self) -> usize {
        self.lefts
    }

    fn rights(&self) -> usize {
        self.rights
    }

    fn conditions(&self) -> usize {
        self.conditions
    }

    fn left_present(&self, s: usize) -> bool {
        s < self.lefts && self.words[s] == PRESENT
    }

    fn right_present(&self, t: usize) -> bool {
        t < self.rights && self.words[self.lefts + t] == PRESENT
    }

    fn code(&self, s: usize, t: usize) -> u64 {
        if s < self.lefts && t < self.rights {
            self.words[self.lefts + self.rights + s * self.rights + t]
        } else {
            0
        }
    }
}
