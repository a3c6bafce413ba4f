// The laws of the definitions, each carried by the contract of a function that does nothing.
ghost use Rattle.stx_judge.specs.Laws.{ValidIsInOrder, CyclesAreWays};

/// What a valid scenario can be relied on for: no list is too long, all that is named is there, callbacks hold only what
/// they may, the classes make a tree, no method leads to itself, ranks are at most 64 and the weight is at most 200,000.
pub fn valid_is_in_order()
    ensures { ValidIsInOrder }
{}

/// A method leads to itself exactly where one or more steps lead from it back to it.
pub fn cycles_are_ways()
    ensures { CyclesAreWays }
{}
