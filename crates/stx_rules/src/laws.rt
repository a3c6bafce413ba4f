// The law of the definitions, carried by the contract of a function that does nothing.
ghost use Rattle.stx_rules.specs.Laws.{WinnerIsNearest};

/// Which rule wins. A rule wins exactly where it matches the thrown class or one above it, each earlier rule that does
/// is deeper, and no later one is less deep. None wins exactly where none matches.
pub fn winner_is_nearest()
    ensures { WinnerIsNearest }
{}
