// The questions that are asked of words of a book's length.
ghost use Rattle.std.specs.Prelude.{◌≡◌, ◌+◌, ◌*◌, ◌<◌, ◌≤◌, length};
ghost use Rattle.records.specs.Questions.{Checked};
ghost use Rattle.contexts.specs.Book.{book_size};
ghost use Rattle.contexts.specs.BookOpening.{presence_known, code_allowed, first_failing};
ghost use Rattle.contexts.specs.BookRefusals.{book_refusal};

use super::{BookFault, PRESENT};
use lattice::Width;

// Words that are as many as a book of these sides has, and how many conditions it is for.
#[derive(Drop)]
pub(super) struct Pages<'a> {
    pub(super) words: &'a [u64],
    pub(super) lefts: usize,
    pub(super) rights: usize,
    pub(super) width: Width,
    ghost few_lefts: { lefts ≤ 2048 },
    ghost few_rights: { rights ≤ 2048 },
    ghost whole: { length words.now ≡ book_size lefts rights },
}

impl Pages<'_> {
    // Whether each word before the codes is a presence word.
    pub(super) fn check_presence(&self) -> Result<(), BookFault>
        ensures { Checked book_refusal (first_failing 22 (presence_known self.now.words.now) 0 (self.now.lefts + self.now.rights)) result }
    {
        self.words[..self.lefts + self.rights]
            .iter()
            .position(|word| *word > PRESENT)
            .map_or(Ok(()), |word| Err(BookFault::UnknownPresence { word }))
    }

    // Whether word i may stand there as the code of its pair. Inlined, since the sides would else be read again for each word.
    #[inline(always)]
    fn is_code_allowed(&self, i: usize) -> bool
        requires behind { self.now.lefts + self.now.rights ≤ i }
        requires within { i < length self.now.words.now }
        ensures { result ≡ code_allowed self.now.words.now self.now.lefts self.now.rights self.now.width.conditions i }
    {
        let pair = i - (self.lefts + self.rights);
        if self.words[i] > self.width.whole() {
            return false;
        }
        let s = pair / self.rights;
        let t = pair % self.rights;
        self.words[s] == PRESENT && self.words[self.lefts + t] == PRESENT || self.words[i] == 0
    }

    // Whether each word behind the presence words may be the code of its pair.
    #[inline(always)]
    pub(super) fn check_codes(&self) -> Result<(), BookFault>
        ensures { Checked book_refusal (first_failing 23 (code_allowed self.now.words.now self.now.lefts self.now.rights self.now.width.conditions) (self.now.lefts + self.now.rights) (self.now.lefts * self.now.rights)) result }
    {
        (self.lefts + self.rights..self.words.len())
            .find(|i| !self.is_code_allowed(*i))
            .map_or(Ok(()), |word| Err(BookFault::WrongCode { word }))
    }
}
