// The report of a run: each client's lines, the journal, and the rows at the end.
ghost use Rattle.std.specs.Prelude.{◌≡◌, IfOk};
ghost use Rattle.stx_base.specs.Report.{printed};

use crate::clients::push_clients;
use crate::final_rows::final_values;
use crate::journal::push_journal;
use crate::rows::push_rows;
use crate::text::push_text;
use std::alloc::Global;
use stx_base::Outcome;
use stx_scenario::{NoMemory, Scenario};

/// The report of what a run of a scenario left.
pub fn print(alloc: Global, scenario: &Scenario, outcome: &Outcome) -> Result<Vec<u8>, NoMemory>
    ensures { IfOk result (λ text. text.items ≡ printed scenario.now outcome.now) }
{
    let values = final_values(alloc, scenario, outcome.store.as_slice())?;
    let mut out = Vec::new(alloc);
    push_text(&mut out, "springtx 1\n")?;
    push_clients(alloc, &mut out, scenario, outcome)?;
    push_text(&mut out, "journal\n")?;
    push_journal(&mut out, outcome.store.as_slice())?;
    push_text(&mut out, "rows\n")?;
    push_rows(
        alloc,
        &mut out,
        scenario.row_names.as_slice(),
        values.as_slice(),
    )?;
    push_text(&mut out, "end\n")?;
    Ok(out)
}
