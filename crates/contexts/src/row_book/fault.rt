// The number and the place of each refusal of a row book.
ghost use Rattle.contexts.specs.BookRefusals.{book_refusal};

use super::BookFault;
use records::Fault;

impl Fault for BookFault {
    ghost refusal = { book_refusal };

    fn number(&self) -> u32 {
        match *self {
            BookFault::TooLarge => 20,
            BookFault::WrongLength => 21,
            BookFault::UnknownPresence { .. } => 22,
            BookFault::WrongCode { .. } => 23,
        }
    }

    fn place(&self) -> usize {
        match *self {
            BookFault::TooLarge | BookFault::WrongLength => 0,
            BookFault::UnknownPresence { word } | BookFault::WrongCode { word } => word,
        }
    }
}
