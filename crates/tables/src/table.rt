// The five questions that every table answers by its meaning.
ghost use Rattle.std.specs.Prelude.{◌≡◌, length};
ghost use Rattle.std.specs.List.{slice_get};
ghost use Rattle.tables.specs.Meaning.{Meaning, Sound};

// A table. Any number may be asked: out of range is absent, and has empty lists.
pub trait Table {
    ghost meaning: { Self → Meaning };

    // How many subject numbers there are.
    fn subjects(&self) -> usize
        ensures { result ≡ (meaning self.now).subjects };

    // How many properties there are.
    fn properties(&self) -> usize
        ensures { result ≡ (meaning self.now).properties };

    fn is_present(&self, s: usize) -> bool
        ensures { result ≡ (meaning self.now).present s };

    // How long the list at subject `s` and property `p` is.
    fn count(&self, s: usize, p: usize) -> usize
        ensures { result ≡ length ((meaning self.now).values s p) };

    // Entry number `i` of that list, or nothing where there are fewer.
    fn value(&self, s: usize, p: usize, i: usize) -> Option<u32>
        ensures { result ≡ slice_get ((meaning self.now).values s p) i };

    ghost sound: { (t : Self) → Sound (meaning t) };
}
