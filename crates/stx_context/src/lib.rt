//! What a client carries from call to call, and its suspension and resumption (`TransactionSynchronizationManager`,
//! `AbstractPlatformTransactionManager.suspend` and `resume`). `specs/Carrying` says what contracts see of it.
#![tactic(auto)]

mod context;
mod suspended;

pub use context::Context;
pub use suspended::Suspended;
