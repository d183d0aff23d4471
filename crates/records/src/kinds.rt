// The four kinds of record, a file each.

pub mod candidate;
pub mod condition;
pub mod link;
pub mod triple;
