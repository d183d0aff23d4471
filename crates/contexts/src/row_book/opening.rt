// Opening a row book: the questions that are asked of the words, and the words back.
ghost use Rattle.std.specs.Prelude.{◌≡◌, MatchResult};
ghost use Rattle.records.specs.Questions.{Checked};
ghost use Rattle.contexts.specs.BookMaking.{BookMade, BookRefused};
ghost use Rattle.contexts.specs.BookOpening.{book_fault};
ghost use Rattle.contexts.specs.BookRefusals.{book_refusal};

use super::pages::Pages;
use super::{BookFault, BookRefusal, RowBook};
use lattice::Width;

const MOST_SUBJECTS: usize = 2048;

const MOST_CONDITIONS: usize = 64;

// Asks every question of the words, in order.
fn check(words: &[u64], lefts: usize, rights: usize, conditions: usize) -> Result<(), BookFault>
    ensures { Checked book_refusal (book_fault words.now lefts rights conditions) result }
{
    if lefts > MOST_SUBJECTS || rights > MOST_SUBJECTS || conditions > MOST_CONDITIONS {
        return Err(BookFault::TooLarge);
    }
    if words.len() != lefts + rights + lefts * rights {
        return Err(BookFault::WrongLength);
    }
    let width = Width {
        conditions: conditions as u32,
    };
    let pages = Pages {
        words,
        lefts,
        rights,
        width,
    };
    pages.check_presence()?;
    pages.check_codes()
}

impl RowBook {
    // The book of these words, which come back where they are refused.
    pub fn open(
        words: Vec<u64>,
        lefts: usize,
        rights: usize,
        conditions: usize,
    ) -> Result<RowBook, BookRefusal>
        ensures { MatchResult result (BookMade words.items lefts rights conditions) (BookRefused words.items lefts rights conditions) }
    {
        // Both arms take the words, so this is no `?`.
        match check(words.as_slice(), lefts, rights, conditions) {
            Ok(()) => Ok(RowBook {
                words,
                lefts,
                rights,
                conditions,
            }),
            Err(fault) => Err(BookRefusal { words, fault }),
        }
    }

    // The words, as they were given.
    pub fn into_words(self) -> Vec<u64>
        ensures { result ≡ self.words }
    {
        self.words
    }
}
