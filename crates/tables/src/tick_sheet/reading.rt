// The words of one subject, and the values that a word ticks.
ghost use Rattle.std.specs.Prelude.{◌≡◌, ◌+◌, ◌*◌, ◌≤◌, length};
ghost use Rattle.std.specs.List.{slice_get};
ghost use Rattle.tables.specs.TickSheet.{row, ticked};

// The two presence words.
pub(super) const ABSENT: u64 = 0;

pub(super) const PRESENT: u64 = 1;

// How many values a word can tick.
const TICKS: u32 = 64;

// The words of subject `s`.
pub(super) fn row_of(words: &[u64], properties: usize, s: usize) -> &[u64]
    requires { s * (properties + 1) + (properties + 1) ≤ length words.now }
    ensures value { result.now ≡ row words.now properties s }
    ensures len { length result.now ≡ properties + 1 }
{
    let width = properties + 1;
    &words[s * width..s * width + width]
}

// How many values the word ticks.
pub(super) fn tick_count(word: u64) -> usize
    ensures { result ≡ length (ticked word) }
{
    word.count_ones() as usize
}

// Value number `i` of those that the word ticks.
pub(super) fn tick_at(word: u64, i: usize) -> Option<u32>
    ensures { result ≡ slice_get (ticked word) i }
{
    // Lists are read to their end, and there the word need not be walked through.
    if i >= tick_count(word) {
        return None;
    }
    (0..TICKS).filter(|value| (word >> *value) % 2 == 1).nth(i)
}
