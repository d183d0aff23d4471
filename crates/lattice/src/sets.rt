// Sets of conditions are codes.
ghost use Rattle.lattice.specs.Sets.{CodesAreBelow, CodesHaveWhatPasses, SameConditionsSameCode, CodesComeBack, CodesGrow, WholeHasAll, MeetsByBits, InclusionByBits};

// A set of conditions and its code determine one another, and bits tell what sets do.
pub fn sets_are_codes()
    ensures below { CodesAreBelow }
    ensures passing { CodesHaveWhatPasses }
    ensures same { SameConditionsSameCode }
    ensures back { CodesComeBack }
    ensures grow { CodesGrow }
    ensures all { WholeHasAll }
    ensures meets { MeetsByBits }
    ensures inclusion { InclusionByBits }
{}
