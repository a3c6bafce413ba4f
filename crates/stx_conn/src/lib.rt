//! A connection that is bound with its transaction, its rollback-only mark and its savepoints (`ConnectionHolder`).
//! `specs/Bindings` says what contracts see of it.
#![tactic(auto)]

mod holder;

pub use holder::Holder;
