// Laws of runs, each on a call of its own.
ghost use Rattle.runs.specs.Small.{SmallRegistersAreListed};

// Pair codes, widenings, candidates and counts of two small register files.
pub fn small_registers_are_listed()
    ensures { SmallRegistersAreListed }
{}
