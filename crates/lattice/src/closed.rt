// Closed codes, and the step from one to the next.
ghost use Rattle.std.specs.Prelude.{◌≡◌, ◌^◌, ◌<◌, MatchOption};
ghost use Rattle.lattice.specs.Closed.{Accepted, trial, next_closed, MeetsAreClosed, NextIsLeast, NoneIsLast, FirstAcceptedIsNext, NoneAcceptedIsLast, NextByMembers};

use crate::widening::widen;
use crate::width::Width;

// The trial at `place`, if it is accepted: `x` lacks the condition there, and the trial changes none of more weight.
fn accepted(codes: &[u64], width: Width, x: u64, place: u32) -> Option<u64>
    requires code { x < 2 ^ width.conditions }
    requires condition { place < width.conditions }
    ensures { MatchOption result (Accepted width.conditions codes.now x place → ⊥) (λ t. Accepted width.conditions codes.now x place × (t ≡ trial width.conditions codes.now x place)) }
{
    let high = x >> place;
    if high % 2 != 0 {
        return None;
    }
    let trial = widen(codes, width, (high + 1) << place);
    if (trial >> place) / 2 == high / 2 {
        Some(trial)
    } else {
        None
    }
}

// The least closed code above `x`; none where `x` is the last, or no code of this width.
// Codes and width come apart, here and in `widen`: a caller has them beside other things, and would make a struct for each call.
pub fn next(codes: &[u64], width: Width, x: u64) -> Option<u64>
    ensures { result ≡ next_closed width.conditions codes.now x }
{
    if x > width.whole() {
        return None;
    }
    (0..width.conditions).find_map(|place| accepted(codes, width, x, place))
}

// Meets of closed codes are closed, and the first accepted trial is the next closed code.
pub fn steps_follow_trials()
    ensures meets { MeetsAreClosed }
    ensures least { NextIsLeast }
    ensures last { NoneIsLast }
    ensures accepted { FirstAcceptedIsNext }
    ensures refused { NoneAcceptedIsLast }
    ensures members { NextByMembers }
{}
