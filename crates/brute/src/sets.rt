// Sets of conditions as codes.
use crate::facts::MOST;

// The weight of condition i of k, and 0 where there is none such.
pub fn weight(k: usize, i: usize) -> u64 {
    if i < k && k <= MOST {
        1 << (k - 1 - i)
    } else {
        0
    }
}

// Whether condition i of k is in the set.
pub fn is_member(x: u64, k: usize, i: usize) -> bool {
    x & weight(k, i) != 0
}

// How many conditions the set has.
pub fn count_members(x: u64, k: usize) -> usize {
    (0..k).filter(|i| is_member(x, k, *i)).count()
}
