// The text that answers a check.
ghost use Rattle.std.specs.Prelude.{◌≡◌, IfOk};
ghost use Rattle.stx_base.specs.CheckText.{check_words};

use std::alloc::Global;
use stx_scenario::NoMemory;

/// The text that says that a scenario is accepted, with its weight.
pub fn check_text(alloc: Global, weight: u64) -> Result<Vec<u8>, NoMemory>
    ensures { IfOk result (λ text. text.items ≡ check_words weight) }
{
    let text = format!(in alloc; "accepted weight {weight}\n")?;
    Ok(text.into_bytes())
}
