// Contexts: a relation of codes between two sides, the questions that every context answers by it, and row books.
#![tactic(auto)]

pub mod coded_pair;
pub mod context;
pub mod laws;
pub mod row_book;

pub use coded_pair::CodedPair;
pub use context::Context;
pub use laws::books_come_back;
pub use row_book::{BookFault, BookRefusal, RowBook};
