//! Reads a scenario from the bytes of a file, or says why they state none.
#![tactic(auto)]

mod laws;
mod read;

pub use laws::drafts_are_shaped;
pub use read::read_scenario;
pub use stx_judge::{cycles_are_ways, judge, valid_is_in_order};
pub use stx_refusals::{Argument, ReadFault};
