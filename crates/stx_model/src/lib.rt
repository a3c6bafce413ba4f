//! The definitions of Spring's transactions as `specs`: scripts, plays and faithful runs, and the laws on them, each
//! carried by a function. The types that they speak of are those of `stx_base`, and have their names here too.
#![tactic(auto)]

mod laws;

pub use laws::{
    after_commit_comes_too_late, after_commit_throws_to_the_caller, answers_are_read, balanced,
    breaks_at_wrong_notes, calls_leave_the_context, committed_stays_committed,
    committed_stays_said, completed_once, done_is_faithful, entries_within, gives_all_back,
    joined_scopes_only_mark, journal_is_serial, own_notes_fresh, played_is_faithful,
    reads_in_order, reads_within, requires_new_stands_apart, resumes_in_order, says_within,
    scripts_grow, wants_proper,
};
pub use stx_base::{
    Access, Action, Answer, Call, ClientLines, Connection, Cost, Ending, Kind, Label, Line, Note,
    Opening, Outcome, PoolAnswer, PoolCall, PoolEntry, PoolNote, Reply, Report, Round, Session,
    StoreAnswer, StoreCall, StoreEntry, StoreFacts, StoreNote, ToolEnd, Want,
};
