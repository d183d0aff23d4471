// Sets of conditions as codes: their widening over a list of codes, and the closed codes one after another.
// A draft has at most 64 conditions; the code of a set is the sum of its conditions' weights.
#![tactic(auto)]

pub mod candidates;
pub mod closed;
pub mod sets;
#[cfg(test)]
mod tests;
pub mod widening;
pub mod width;

pub use candidates::candidates_follow_steps;
pub use closed::{next, steps_follow_trials};
pub use sets::sets_are_codes;
pub use widening::{widen, widening_is_closure};
pub use width::Width;
