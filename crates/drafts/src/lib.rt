// Drafts: conditions over two tables, and the context that they make.
#![tactic(auto)]

pub mod comparison;
pub mod conditions;
pub mod draft;
pub mod laws;
#[cfg(test)]
mod tests;

pub use comparison::Comparison;
pub use conditions::{equal, share};
pub use draft::{Draft, DraftFault, FreezeFault, Live, Undrafted};
pub use laws::conditions_compare_sets;
