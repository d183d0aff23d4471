// The code of the conditions that hold for a pair.
ghost use Rattle.std.specs.Prelude.{◌≡◌};
ghost use Rattle.drafts.specs.Live.{live_code};

use super::Draft;
use tables::Table;

impl<L: Table, R: Table> Draft<L, R> {
    // Each comparison doubles the code and adds what it says of left subject `s` and right subject `t`.
    pub(super) fn code(&self, s: usize, t: usize) -> u64
        ensures { result ≡ live_code (L.Table.meaning self.now.left) (R.Table.meaning self.now.right) self.now.comparisons.items s t }
    {
        self.comparisons.iter().fold(0, |code, comparison| {
            code * 2 + u64::from(comparison.holds(&self.left, &self.right, s, t))
        })
    }
}
