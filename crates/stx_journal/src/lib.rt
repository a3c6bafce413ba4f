//! The journal: what each commit changed, in the order of the commits. `specs/Journal` says what contracts see of it.
#![tactic(auto)]

mod committed;
mod journal;
mod laws;
mod replay;
mod table;

pub use committed::{Changes, Committed};
pub use journal::Journal;
pub use laws::journal_gives_rows;
pub use replay::{RowValue, rows_after};
