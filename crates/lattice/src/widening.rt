// The widening of a set of conditions over a list of codes.
ghost use Rattle.std.specs.Prelude.{◌≡◌};
ghost use Rattle.lattice.specs.Widening.{widening as widening_of, RunningMeetWidens, WideningExtends, WideningGrows, WideningSettles, WideningKeepsCodes, WideningByMembers, WideningByLinks, IncludingByLinks};

use crate::width::Width;

// The conditions that all codes have that include `x`, in one pass over the codes.
// Bits of `x` beyond the width are no conditions and do not count.
pub fn widen(codes: &[u64], width: Width, x: u64) -> u64
    ensures { result ≡ widening_of width.conditions codes.now x }
{
    let whole = width.whole();
    let asked = x & whole;
    codes.iter().fold(whole, |all, code| {
        if *code & asked == asked {
            all & *code
        } else {
            all
        }
    })
}

// Widening is a closure, computed by the running meet; of the codes only their set matters.
pub fn widening_is_closure()
    ensures running { RunningMeetWidens }
    ensures extends { WideningExtends }
    ensures grows { WideningGrows }
    ensures settles { WideningSettles }
    ensures codes { WideningKeepsCodes }
    ensures members { WideningByMembers }
    ensures links { WideningByLinks }
    ensures linked { IncludingByLinks }
{}
