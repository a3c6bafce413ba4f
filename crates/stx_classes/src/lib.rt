//! The tree of exception classes: which class is below which, and how many steps below.
#![tactic(auto)]

mod fault;
mod laws;
mod steps;
mod tree;

pub use fault::ClassFault;
pub use laws::{below_is_a_way, depth_is_fewest, own_ancestor_is_a_way, tree_reaches_throwable};
pub use tree::ClassTree;
