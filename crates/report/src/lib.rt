// What the programs make of their files: tables and a draft or a fault, which is printed, and the bytes of every line.
#![tactic(auto)]

pub mod accepting;
pub mod candidates;
pub mod draft;
pub mod file;
pub mod lines;
pub mod register;
pub mod source;
#[cfg(test)]
mod tests;

pub use accepting::accepted;
pub use candidates::next_line;
pub use draft::{count_kind, open_draft};
pub use file::{FileFault, OpenError, open};
pub use lines::{candidate_line, draft_line, end_line, fault_line, register_line};
pub use register::open_register;
pub use source::Source;
