// The laws of the definitions, each carried by the contract of a function that does nothing.
ghost use Rattle.stx_model.specs.Laws.{AnswersAreRead, Balanced, BreaksAtWrongNotes, CommittedStaysCommitted, CompletedOnce, DoneIsFaithful, EntriesWithin, GivesAllBack, JournalIsSerial, OwnNotesFresh, PlayedIsFaithful, ReadsInOrder, ReadsWithin, ResumesInOrder, SaysWithin, ScriptsGrow, WantsProper};
ghost use Rattle.stx_model.specs.Assurances.{AfterCommitComesTooLate, AfterCommitThrowsToTheCaller, CallsLeaveTheContext, CommittedStaysSaid, JoinedScopesOnlyMark, RequiresNewStandsApart};

/// The store's journal is a serial order. Take any legal history of the store, and run the committed transactions and
/// the own statements alone, one after the other, in the order of the journal: each finds exactly the answers that it
/// was given when they ran side by side, with savepoints, locks and rivals that were rolled back.
pub fn journal_is_serial()
    ensures { JournalIsSerial }
{}

/// How many notes scripts read, in a scenario in which no method leads to itself. Over any notes, the scripts of all clients together
/// read at most eight for each unit of the scenario's weight.
pub fn reads_within()
    ensures { ReadsWithin }
{}

/// How many lines scripts say, in a scenario in which no method leads to itself. Over any notes, the scripts of all
/// clients together say at most sixteen for each unit of the scenario's weight.
pub fn says_within()
    ensures { SaysWithin }
{}

/// How long histories grow, in a scenario in which no method leads to itself. Legal histories of the pool and of the store, of which
/// each client's script has read all of the client's own notes, have together at most eight entries for each unit of the
/// scenario's weight.
pub fn entries_within()
    ensures { EntriesWithin }
{}

/// A client's own notes are fresh. In a legal history of the pool no client takes a connection that it has out, and in a
/// legal history of the store none begins a transaction number twice.
pub fn own_notes_fresh()
    ensures { OwnNotesFresh }
{}

/// A joined scope only marks. Between its `end` line and its `leave` line a scope that takes part in the transaction of
/// another says nothing but that it marks it for rollback, and that only where its ending isn't commit. Its completion
/// reads no note and is always over: it throws nothing of its own, leaves with what its body threw, and changes nothing
/// of the context but that mark (`AbstractPlatformTransactionManager.processRollback`,
/// `setGlobalRollbackOnParticipationFailure`).
pub fn joined_scopes_only_mark()
    ensures { JoinedScopesOnlyMark }
{}

/// `requires_new` stands apart. However a call with this propagation ends, the transaction round it has the mark and the
/// registrations that it had, and so has the scope round it its local mark, whatever the called methods did.
pub fn requires_new_stands_apart()
    ensures { RequiresNewStandsApart }
{}

/// An exception of an `after_commit` callback comes too late to undo anything. Where the store committed and a callback of
/// that round throws, what is left of the scope is its `after_completion` round, which is told committed, the give of its
/// connection and the resumption of what was suspended (`TransactionSynchronization.afterCommit`: the transaction has been
/// committed already).
pub fn after_commit_comes_too_late()
    ensures { AfterCommitComesTooLate }
{}

/// And the caller sees it: the call leaves with the class that the `after_commit` callback threw.
pub fn after_commit_throws_to_the_caller()
    ensures { AfterCommitThrowsToTheCaller }
{}

/// A commit stays said. Where the rounds before the store's commit ended and the store committed, the lines of the
/// scope's completion, whatever its end, begin with those before the commit and the line of the commit: whatever a
/// callback throws, what is said of it comes after.
pub fn committed_stays_said()
    ensures { CommittedStaysSaid }
{}

/// Calls leave the context as it was. After a call of a method with an attribute, however it ends, the connection, the
/// transaction, its mark and the registrations are those before it, but that a joined scope may have marked the
/// transaction, and that a joined scope, a savepoint (also one that went back) and an empty scope that neither owns
/// synchronisation nor suspended anything may have added registrations at the end. The scope round it has the local mark
/// that it had.
pub fn calls_leave_the_context()
    ensures { CallsLeaveTheContext }
{}

/// What scripts ask for, in a valid scenario. Take a client's own notes, in which no connection is taken that is out and no
/// transaction number is begun twice. Where its script over them wants a call and leaves no note unread, the call is proper
/// after them: it gives what it has, names a transaction that lives and a savepoint that is there, and stays within the
/// bounds on a client's calls. A call on the pool needs only what is said of connections, a call on the store only what
/// is said of transactions.
pub fn wants_proper()
    ensures { WantsProper }
{}

/// Takes and gives are brackets, and so are the begins and the ends of transactions, and the unbinding and the binding of
/// connections. In the lines of a script that is done each connection that was taken is given, each transaction that was
/// begun is committed or rolled back, and each connection that was unbound is bound again, the newest first, and nothing is
/// open where a top-level call begins.
pub fn balanced()
    ensures { Balanced }
{}

/// Each registration is completed once. In each top-level call of a script that is done, a synchronisation or a listener has
/// its `after_completion` callback as often as it was registered, and at no time more often, whatever rolled back and
/// whatever a callback threw (`TransactionSynchronization.afterCompletion`).
pub fn completed_once()
    ensures { CompletedOnce }
{}

/// What is suspended is resumed in order. A call resumes each registration that it suspended before it leaves, in the order
/// in which it suspended them, and calls inside it have resumed theirs by then, also where the pool was empty or a callback
/// threw (`AbstractPlatformTransactionManager.suspend`, `resume`).
pub fn resumes_in_order()
    ensures { ResumesInOrder }
{}

/// A committed transaction stays committed. Where no transaction number is begun twice, as in a legal history, lines that
/// have a transaction's commit have no rollback of it: nothing that a callback or a caller throws later takes a commit back.
pub fn committed_stays_committed()
    ensures { CommittedStaysCommitted }
{}

/// A script that is done holds nothing. Where it leaves no note unread, no connection is out and no transaction lives in
/// the client's own notes.
pub fn gives_all_back()
    ensures { GivesAllBack }
{}

/// What a play leaves is faithful. Where the histories of the pool and of the store are legal, and each client's script has
/// read all of the client's own notes and is done, the outcome with the scripts' lines is a faithful run.
pub fn done_is_faithful()
    ensures { DoneIsFaithful }
{}

/// What is played is faithful. In a valid scenario the outcome of every schedule, as the definition of a play gives it, is a
/// faithful run: each call is proper and answered, each client comes to its end, and everything is given back.
pub fn played_is_faithful()
    ensures { PlayedIsFaithful }
{}

/// A script only grows with its notes. Give a client more answers from the pool and the store, at the end of those that
/// it had: all lines that its script said are there still, in the same places, and what is new comes after them.
pub fn scripts_grow()
    ensures { ScriptsGrow }
{}

/// A script reads its notes in order: whatever its end, what it leaves unread is the end of the notes that it was given.
pub fn reads_in_order()
    ensures { ReadsInOrder }
{}

/// Answers are read. Where a script has read all its notes and waits for a call, and a note answers this call, the script
/// over the notes with this one reads them all again, this one too: it goes on, and never turns back to an older question.
pub fn answers_are_read()
    ensures { AnswersAreRead }
{}

/// In a valid scenario a script breaks at nothing but a wrong note. Wherever it breaks, the next note doesn't answer the
/// call that it wants there, and over the notes before this one it stops at that call, with the lines that it has. So a
/// client whose calls are answered never breaks: whatever a method or a callback calls lies within the bound by rank, a
/// commit, a rollback and a savepoint find their transaction, and a callback holds nothing that it can't do.
pub fn breaks_at_wrong_notes()
    ensures { BreaksAtWrongNotes }
{}
