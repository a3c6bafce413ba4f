//! The pool and the store as values that threads call in turns, and what each client calls them through. `specs/Logs` says
//! what their histories are to a turn cell, and `specs/Asking` what a call through the cells leaves.
#![tactic(auto)]

mod asking;
mod values;

pub use asking::{Cells, SharedBackend, SharedPool, SharedStore};
pub use values::{PoolValue, StoreValue};
