// Row books: a relation written down as words.
ghost use Rattle.std.specs.Prelude.{◌≡◌, false, is_some};
ghost use Rattle.contexts.specs.BookOpening.{book_fault};

// The presence word of a subject that is present; 0 is that of an absent one.
const PRESENT: u64 = 1;

// A context of words: the presence words of both sides, then the codes of all pairs, row by row.
#[derive(Drop)]
pub struct RowBook {
    words: Vec<u64>,
    lefts: usize,
    rights: usize,
    conditions: usize,
    ghost allowed: { is_some (book_fault words.items lefts rights conditions) ≡ false },
}

// Why words are no row book.
#[derive(Clone, Copy, PartialEq, Eq, Debug)]
pub enum BookFault {
    TooLarge,
    WrongLength,
    UnknownPresence { word: usize },
    WrongCode { word: usize },
}

// The words that were refused, as they were given, and why.
#[derive(Drop)]
pub struct BookRefusal {
    pub words: Vec<u64>,
    pub fault: BookFault,
}

mod asking;
mod fault;
mod opening;
mod pages;
#[cfg(test)]
mod tests;
