//! What the transaction manager decides at the opening and at the ending of a scope, and the scope itself
//! (`AbstractPlatformTransactionManager`, `TransactionStatus`).
#![tactic(auto)]

mod endings;
mod openings;
mod scope;

pub use endings::{completion, ending};
pub use openings::opening;
pub use scope::Scope;
