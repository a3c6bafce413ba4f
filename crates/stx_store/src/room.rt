// Room for an entry, and for all that is owed after it.
ghost use Rattle.std.specs.Prelude.{◌≡◌, ◌+◌, ◌-◌, ◌++◌, ◌∷◌, [], ◌<◌, ◌≤◌, IfOk, OnErr, vec_len, vec_capacity};

use stx_base::{StoreEntry, StoreNote};
use stx_journal::Journal;
use stx_scenario::NoMemory;

/// Makes room for one entry, which may commit, and for `more` entries than were owed, whose number it gives.
pub(crate) fn room_for(
    entries: &mut Vec<StoreEntry>,
    journal: &mut Journal,
    owed: usize,
    more: usize,
) -> Result<usize, NoMemory>
    ensures same { entries.new.items ≡ entries.old.items }
    ensures len { vec_len entries.new ≡ vec_len entries.old }
    ensures capacity { vec_capacity entries.old ≤ vec_capacity entries.new }
    ensures list { journal.new.list ≡ journal.old.list }
    ensures spare { journal.old.spare ≤ journal.new.spare }
    ensures ok { IfOk result (λ now. (now ≡ owed + more) × (vec_len entries.new + now + 1 ≤ vec_capacity entries.new) × (now + 1 ≤ journal.new.spare)) }
{
    let Some(now) = owed.checked_add(more) else {
        return Err(NoMemory::uncountable(owed, more));
    };
    let Some(wanted) = now.checked_add(1) else {
        return Err(NoMemory::uncountable(now, 1));
    };
    entries.reserve(wanted)?;
    journal.reserve(wanted)?;
    Ok(now)
}

/// Keeps the entry of a note that was owed, in the room that was made for it.
pub(crate) fn keep_owed(
    entries: &mut Vec<StoreEntry>,
    owed: &mut usize,
    client: u32,
    note: StoreNote,
)
    requires some { 1 ≤ owed.old }
    requires room { vec_len entries.old + owed.old ≤ vec_capacity entries.old }
    ensures items { entries.new.items ≡ entries.old.items ++ record { client = client; note = note } ∷ [] }
    ensures len { vec_len entries.new ≡ vec_len entries.old + 1 }
    ensures capacity { vec_capacity entries.new ≡ vec_capacity entries.old }
    ensures owed { owed.new ≡ owed.old - 1 }
{
    *owed -= 1;
    entries.push_reserved(StoreEntry { client, note });
}
