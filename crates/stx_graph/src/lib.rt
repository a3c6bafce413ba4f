//! The call graph of a scenario: which methods a method leads to, how deep that goes, and what the whole weighs.
#![tactic(auto)]

mod costs;
mod cycles;
mod graph;
mod method_set;
mod ranks;
mod rows;
mod weighing;

pub use graph::{Graph, GraphFault};
