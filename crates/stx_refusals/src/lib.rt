//! Why the bytes of a file state no scenario: the refusals, the paths that name places, and which of the faults that a walk
//! meets is the refusal.
#![tactic(auto)]

mod fault;
mod faults;
mod path;
mod places;
mod stages;

pub use fault::{Argument, Fault, ReadFault, Stage};
pub use faults::{first_at, refuse};
pub use path::{entry, under};
pub use places::{check_count, check_entry, check_key, check_place};
pub use stages::first_among;
