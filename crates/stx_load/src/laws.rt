// What holds of the definitions, carried by the contract of a function that does nothing.
ghost use Rattle.stx_load.specs.WorkedDraws.{DrawsAreWorkedOut};

/// For three seeds and four clients the bodies of t00, t01 and t63, all calls and the first 20 turns are those that a script
/// works out.
pub fn draws_are_worked_out()
    ensures { DrawsAreWorkedOut }
{}
