// Widenings and steps worked by hand, and a register's codes against the rule itself at every code.
ghost use Rattle.std.specs.Prelude.{◌<◌};

use crate::closed::next;
use crate::widening::widen;
use crate::width::Width;
use std::process::Abort;
use std::test::Fail;

// The codes of three left and three right subjects, row by row.
const PAIRS: [u64; 9] = [193, 67, 0, 67, 193, 0, 0, 0, 3];
// The same codes, each once.
const ONCE: [u64; 4] = [0, 3, 67, 193];

const BOTH: [u64; 4] = [1, 0, 0, 1];

const FULL: [u64; 4] = [3, 3, 3, 3];

const TOP: u64 = 1 << 63;

const ENDS: [u64; 4] = [u64::MAX, TOP, 0, TOP];

// How many conditions, the codes, a set, its widening, and the least closed code above it.
type Case = (u32, [u64; 4], u64, u64, Option<u64>);

const CASES: [Case; 16] = [
    (8, ONCE, 0, 0, Some(1)),
    (8, ONCE, 64, 65, Some(65)),
    (8, ONCE, 128, 193, Some(193)),
    (8, ONCE, 32, 255, Some(65)),
    (8, ONCE, 193, 193, Some(255)),
    (8, ONCE, 255, 255, None),
    (8, ONCE, 256 + 64, 65, None),
    (0, BOTH, 0, 0, None),
    (0, BOTH, 1, 0, None),
    (1, BOTH, 0, 0, Some(1)),
    (1, BOTH, 1, 1, None),
    (1, FULL, 0, 1, Some(1)),
    (64, ENDS, 0, 0, Some(TOP)),
    (64, ENDS, 1, u64::MAX, Some(TOP)),
    (64, ENDS, TOP, TOP, Some(u64::MAX)),
    (64, ENDS, u64::MAX, u64::MAX, None),
];

#[test]
fn widenings_and_steps(rt: HostRuntime) -> Result<(), Fail> {
    for case in &CASES {
        case_holds(&rt, case)?;
    }
    assert!(rt; Width::new(65).is_none());
    every_code_holds(&rt, &PAIRS);
    Ok(())
}

fn case_holds(rt: &impl Abort, case: &Case) -> Result<(), Fail> {
    let (conditions, codes, x, wide, above) = case;
    let Some(width) = Width::new(*conditions) else {
        return Err(Fail::new("too many conditions"));
    };
    assert_eq!(rt; widen(codes, width, *x), *wide);
    assert_eq!(rt; next(codes, width, *x), *above);
    Ok(())
}

// From the last code of eight conditions down, so that the least closed code above each is at hand.
fn every_code_holds(rt: &impl Abort, codes: &[u64]) {
    let width = Width { conditions: 8 };
    let mut above = None;
    for x in (0..256).rev() {
        let wide = widening_by_rule(codes, x);
        assert_eq!(rt; widen(codes, width, x), wide);
        assert_eq!(rt; next(codes, width, x), above);
        if wide == x {
            above = Some(x);
        }
    }
}

fn widening_by_rule(codes: &[u64], x: u64) -> u64 {
    let mut all = 0;
    for place in 0..8u32 {
        if all_have(codes, x, place) {
            all |= 1 << place;
        }
    }
    all
}

// Whether all codes that include x have the condition at the place.
fn all_have(codes: &[u64], x: u64, place: u32) -> bool
    requires { place < 8 }
{
    for code in codes {
        if is_part(x, *code) && (*code >> place) % 2 == 0 {
            return false;
        }
    }
    true
}

fn is_part(x: u64, y: u64) -> bool {
    for place in 0..8u32 {
        if (x >> place) % 2 > (y >> place) % 2 {
            return false;
        }
    }
    true
}
