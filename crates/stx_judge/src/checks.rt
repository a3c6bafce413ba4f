// What is refused in the entries of a list, one by one.
ghost use Rattle.std.specs.Prelude.{◌≡◌, ◌++◌, List as Elements, ℕ, length, OnOk};
ghost use Rattle.std.specs.List.{All};
ghost use Rattle.stx_refusals.specs.declared.fault.Fault.{Fault as Found};
ghost use Rattle.stx_refusals.specs.Faults.{each_from, count_faults};

use std::alloc::Global;
use stx_refusals::{Fault, check_count};
use stx_scenario::{List, NoMemory};

/// The places that are refused so far.
pub type Faults = List<Fault>;

/// What tells the faults of an entry of a list.
pub trait Checks<T> {
    /// The entries whose faults it can tell.
    ghost can_check: { Self → T → Type 0 } = { λ _ _. Unit {0} };

    /// The faults of the entry with a number.
    ghost finds: { Self → ℕ → T → Elements Found };

    fn check(&self, faults: &mut Faults, at: usize, entry: &T) -> Result<(), NoMemory>
        requires { can_check self.now entry.now }
        ensures { OnOk result (faults.new ≡ faults.old ++ finds self.now at entry.now) };
}

/// The faults of each entry.
pub fn check_each<T, C: Checks<T>>(
    faults: &mut Faults,
    checks: &C,
    entries: &[T],
) -> Result<(), NoMemory>
    requires { All (C.can_check checks.now) entries.now }
    ensures { OnOk result (faults.new ≡ faults.old ++ each_from (C.finds checks.now) 0 entries.now) }
{
    for (at, entry) in entries.iter().enumerate() {
        checks.check(faults, at, entry)?;
    }
    Ok(())
}

/// The faults of an array at a path: more entries than it may have, and those of each.
pub fn check_array<T, C: Checks<T>>(
    alloc: Global,
    faults: &mut Faults,
    path: &str,
    most: usize,
    checks: &C,
    entries: &[T],
) -> Result<(), NoMemory>
    requires { All (C.can_check checks.now) entries.now }
    ensures { OnOk result (faults.new ≡ faults.old ++ count_faults most path.now (length entries.now) ++ each_from (C.finds checks.now) 0 entries.now) }
{
    check_count(alloc, faults, path, most, entries.len())?;
    check_each(faults, checks, entries)
}
