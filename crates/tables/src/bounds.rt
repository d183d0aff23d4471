// The bounds that every table keeps.

pub(crate) const MOST_SUBJECTS: usize = 2048;

pub(crate) const MOST_PROPERTIES: usize = 64;
