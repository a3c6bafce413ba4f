// The law that joins the journal to the rows of a history, carried by the contract of a function that does nothing.
ghost use Rattle.stx_journal.specs.Journal.{JournalGivesRows};

/// What a history commits, each with the changes that it made, gives the history's rows.
pub fn journal_gives_rows()
    ensures { JournalGivesRows }
{}
