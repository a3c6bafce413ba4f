// The law of the definitions of drafts, carried by the contract of a function that does nothing.
ghost use Rattle.stx_read.specs.Shaped.{DraftsAreShaped};

/// What a document states is shaped as a scenario has to be.
pub fn drafts_are_shaped()
    ensures { DraftsAreShaped }
{}
