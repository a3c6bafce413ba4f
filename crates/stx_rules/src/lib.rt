//! Which rule decides whether an exception rolls back (`RuleBasedTransactionAttribute.rollbackOn`).
#![tactic(auto)]

mod decision;
mod depth;
mod laws;

pub use decision::{Decision, decide};
pub use laws::winner_is_nearest;
