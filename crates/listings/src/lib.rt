// Listings: the candidates of a relation, one after another, and what every run of calls owes.
#![tactic(auto)]

pub mod call;
pub mod fault;
pub mod laws;
pub mod listing;
pub mod runs;

pub use call::{Answer, Call, Taken, Tally};
pub use fault::{PageFault, TakeFault, TotalFault};
pub use laws::{
    candidates_are_of_codes, links_and_counts_agree, links_are_the_linked, pages_join, records_fit,
    replies_keep_to_the_relation, small_register_is_listed, widening_is_closure,
};
pub use listing::{Listing, Unstarted, start};
pub use runs::{Answered, Unanswered, run};
