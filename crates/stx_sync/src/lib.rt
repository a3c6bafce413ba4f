//! The registrations of a context, and the order in which they are told (`TransactionSynchronizationManager`,
//! `OrderComparator`). `specs/Registries` says what contracts see of them.
#![tactic(auto)]

mod registered;
mod registry;

pub use registered::Registered;
pub use registry::Registry;

#[cfg(test)]
mod tests;
