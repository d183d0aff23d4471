// Whole runs over two tables: what any list of calls is answered, and that alike tables answer alike.
#![tactic(auto)]

pub mod alike;
pub mod laws;
pub mod over_book;
pub mod over_tables;
#[cfg(test)]
mod tests;

pub use alike::{BothAnswered, BothUnanswered, run_alike};
pub use laws::small_registers_are_listed;
pub use over_book::run_over_book;
pub use over_tables::run_over_tables;
