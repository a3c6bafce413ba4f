//! What a publication does with each listener of its event, and in which callback a registered one runs
//! (`TransactionalApplicationListener`).
#![tactic(auto)]

mod deeds;
mod rounds;

pub use deeds::{Deed, on_publish};
pub use rounds::runs_in;

#[cfg(test)]
mod tests;
