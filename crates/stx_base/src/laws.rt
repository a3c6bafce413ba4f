// A law of the weights, carried by the contract of a function that does nothing.
ghost use Rattle.stx_base.specs.Laws.{RanksAreLongestWays};

/// What a rank is. Where no method leads to itself, the rank of a method is the steps of the longest way of calls from
/// it: there is a way of so many steps, and none is longer. It is 0 where the method leads to none, else one more than
/// the greatest rank to which it leads, and a method's cost is what its statements make it.
pub fn ranks_are_longest_ways()
    ensures { RanksAreLongestWays }
{}
