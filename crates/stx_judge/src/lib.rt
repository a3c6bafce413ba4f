//! Judges a scenario that is a value: whether it is valid, and else why it is refused.
#![tactic(auto)]

mod arrays;
mod callbacks;
mod calls;
mod checks;
mod classes;
mod judging;
mod laws;
mod parts;
mod references;
mod stages;
mod tables;
mod texts;

pub use judging::{judge, judged, looked_up_fault, unknown_reference};
pub use laws::{cycles_are_ways, valid_is_in_order};
