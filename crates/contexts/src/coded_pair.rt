// Pairs for which a condition holds.

// A left and a right subject, and the code of the conditions that hold for them.
#[derive(Clone, Copy, PartialEq, Eq, Debug)]
pub struct CodedPair {
    pub left: u32,
    pub right: u32,
    pub code: u64,
}
