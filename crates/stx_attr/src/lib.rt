//! Which transaction attribute each method has (`AbstractFallbackTransactionAttributeSource`).
#![tactic(auto)]

mod attributes;

pub use attributes::Attributes;
