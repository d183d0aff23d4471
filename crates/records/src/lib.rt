// Records of fixed size in a run of bytes: triples, conditions, links and candidates.
// Each kind says its size and its fields; reading and writing are written once, for every kind.
#![tactic(auto)]

pub mod fault;
mod fields;
pub mod kinds;
pub mod record;
pub mod round_trip;

pub use fault::{Fault, ReadFault, TripFault, WriteFault};
pub use kinds::candidate::Candidate;
pub use kinds::condition::{Condition, Kind, UnknownKind};
pub use kinds::link::Link;
pub use kinds::triple::Triple;
pub use record::{Record, read, write};
pub use round_trip::{reads_back, writes_back};

#[cfg(test)]
mod tests;
