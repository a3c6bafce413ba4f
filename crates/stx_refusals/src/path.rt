// The paths that name places: keys joined by dots, and indices from 0 in brackets.
ghost use Rattle.std.specs.Prelude.{◌≡◌, IfOk};
ghost use Rattle.stx_refusals.specs.Faults.{under as path_under, entry as path_of_entry};

use crate::fault::Argument;
use std::alloc::Global;
use stx_scenario::NoMemory;

/// The path of a key in the table at a path; the root has the empty path.
pub fn under(alloc: Global, path: &str, key: &str) -> Result<Argument, NoMemory>
    ensures { IfOk result (λ inner. inner ≡ path_under path.now key.now) }
{
    if path.is_empty() {
        return Ok(Argument::from_text(String::from_str(alloc, key)?));
    }
    Ok(Argument::from_text(format!(in alloc; "{path}.{key}")?))
}

/// The path of an entry of the array at a path.
pub fn entry(alloc: Global, path: &str, at: usize) -> Result<Argument, NoMemory>
    ensures { IfOk result (λ inner. inner ≡ path_of_entry path.now at) }
{
    Ok(Argument::from_text(format!(in alloc; "{path}[{at}]")?))
}
