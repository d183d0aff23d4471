// Layers: tables that stand on any table, follow their rule, and give the table below back.
#![tactic(auto)]

pub mod folding;
pub mod folding_list;
pub mod kind;
pub mod laws;
pub mod pick;
pub mod picks;
#[cfg(test)]
mod tests;

pub use folding::FoldingLayer;
pub use folding_list::{Folding, FoldingFault, FoldingList};
pub use kind::KindLayer;
pub use laws::{
    folding_twice_is_folding_once, kind_makes_nobody_present, kind_twice_is_kind_once,
    picks_follow_the_table_below,
};
pub use pick::PickLayer;
pub use picks::{Picks, PicksFault};
