//! Which transaction holds which row. `specs/Locks` says what contracts see of it.
#![tactic(auto)]

mod lock;
mod table;

pub use table::{Ask, LockTable};
