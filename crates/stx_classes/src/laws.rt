// The laws of the tree, each carried by the contract of a function that does nothing.
ghost use Rattle.stx_classes.specs.Laws.{DepthIsFewest, BelowIsAWay, OwnAncestorIsAWay, TreeReachesThrowable};

/// The depth is the fewest steps that lead from a class up to another; where none lead there it has none.
pub fn depth_is_fewest()
    ensures { DepthIsFewest }
{}

/// A class is another or below it exactly where some number of steps leads up to it.
pub fn below_is_a_way()
    ensures { BelowIsAWay }
{}

/// A class is its own ancestor exactly where one or more steps lead from it up to itself.
pub fn own_ancestor_is_a_way()
    ensures { OwnAncestorIsAWay }
{}

/// In a tree at most 64 steps lead from each class up to `Throwable`.
pub fn tree_reaches_throwable()
    ensures { TreeReachesThrowable }
{}
