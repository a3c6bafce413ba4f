// Why classes make no tree.
ghost use Rattle.std.specs.Prelude.{◌≡◌};
ghost use Rattle.stx_classes.specs.declared.fault.ClassFault.{ClassFault};

use stx_scenario::{ClassNo, NoMemory};

/// Why classes make no tree. The class is the first, in the order of the numbers, of which the cause holds.
#[derive(Clone, Copy, Debug, PartialEq, Eq)]
pub enum ClassFault {
    /// Its parent is out of range, or it has none and isn't `Throwable`.
    UnknownParent(ClassNo),
    /// It is its own ancestor.
    Cycle(ClassNo),
    /// It is more than 64 steps below `Throwable`.
    TooDeep(ClassNo),
    NoMemory(NoMemory),
}

impl From<NoMemory> for ClassFault {
    ghost from_gives = { λ refused fault. fault ≡ ClassFault.NoMemory refused };

    fn from(refused: NoMemory) -> Self {
        ClassFault::NoMemory(refused)
    }
}
