// How many conditions a draft has.
ghost use Rattle.std.specs.Prelude.{◌≡◌, ◌<◌, ◌≤◌, MatchOption};
ghost use Rattle.lattice.specs.Sets.{whole as whole_of};

// A number of conditions that a code of 64 bits can hold. Where that is known, the literal does without the test of `new`.
#[derive(Clone, Copy, PartialEq, Eq, Debug)]
pub struct Width {
    pub conditions: u32,
    ghost few: { conditions ≤ 64 },
}

impl Width {
    // Refuses more than 64 conditions.
    pub fn new(conditions: u32) -> Option<Width>
        ensures { MatchOption result (64 < conditions) (λ w. w.conditions ≡ conditions) }
    {
        if conditions <= 64 {
            Some(Width { conditions })
        } else {
            None
        }
    }

    // The code of the set of all conditions.
    pub fn whole(self) -> u64
        ensures { result ≡ whole_of self.conditions }
    {
        // A shift by all 64 bits is none that a `u64` has.
        if self.conditions == 64 {
            u64::MAX
        } else {
            (1 << self.conditions) - 1
        }
    }
}
