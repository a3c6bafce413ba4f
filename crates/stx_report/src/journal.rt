// The text of the journal: the commits among the store's entries, by their numbers.
ghost use Rattle.std.specs.Prelude.{◌≡◌, ◌++◌, OnOk, Some};
ghost use Rattle.std.specs.Option.{option_map};
ghost use Rattle.stx_base.specs.Report as texts;
ghost use Rattle.stx_report.specs.inner.Commits.{made_words};

use crate::text::{push_counted, push_text};
use stx_base::{Answer, StoreEntry, StoreNote};
use stx_scenario::NoMemory;

/// Who made a commit.
#[derive(Clone, Copy)]
pub enum Made {
    Transaction(u32),
    OwnStatement,
}

/// Appends a line for each commit among the entries of the whole history.
pub fn push_journal(out: &mut Vec<u8>, entries: &[StoreEntry]) -> Result<(), NoMemory>
    ensures { OnOk result
        (out.new.items ≡ out.old.items ++ texts.journal_text 1 1 entries.now) }
{
    let mut commits = 0;
    for (index, entry) in entries.iter().enumerate() {
        if let Some(made) = made_by(entry.note) {
            commits += 1;
            push_commit(out, commits, index as u64 + 1, entry.client, made)?;
        }
    }
    Ok(())
}

/// Appends the line of the commit with this number, whose entry has this place.
fn push_commit(
    out: &mut Vec<u8>,
    number: u64,
    place: u64,
    client: u32,
    made: Made,
) -> Result<(), NoMemory>
    ensures { OnOk result (out.new.items ≡
        out.old.items ++ texts.commit_text number place client (Some (made_words made))) }
{
    push_counted(out, "commit ", number)?;
    push_counted(out, " client ", client.into())?;
    push_text(out, " ")?;
    push_made(out, made)?;
    push_counted(out, " @s", place)?;
    push_text(out, "\n")?;
    Ok(())
}

fn push_made(out: &mut Vec<u8>, made: Made) -> Result<(), NoMemory>
    ensures { OnOk result (out.new.items ≡ out.old.items ++ made_words made) }
{
    match made {
        Made::Transaction(tx) => push_counted(out, "tx ", tx.into()),
        Made::OwnStatement => push_text(out, "auto"),
    }
}

/// Who made the commit that a note is; `None` where it is none.
fn made_by(note: StoreNote) -> Option<Made>
    ensures { option_map made_words result ≡ texts.commit_words note }
{
    match note {
        StoreNote::Commit { tx, .. } => Some(Made::Transaction(tx)),
        StoreNote::Auto {
            answer: Answer::Busy(_),
            ..
        } => None,
        StoreNote::Auto { .. } => Some(Made::OwnStatement),
        _ => None,
    }
}
