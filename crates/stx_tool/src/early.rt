// Why a top call ends before it writes anything.
ghost use Rattle.std.specs.Prelude.{◌≡◌};
ghost use Rattle.stx_tool.specs.declared.early.Early.TheVariants.{NoMemory as WantOfMemory};
ghost use Rattle.stx_tool.specs.Early.{of_words, of_input, status_of};

use stx_outside::ReadEnd;
use stx_scenario::NoMemory;
use stx_words::WordsFault;

/// Why a top call ends before it writes anything.
#[derive(Clone, Copy, Debug, PartialEq, Eq)]
pub enum Early {
    /// The words state no job.
    Usage,
    /// A read failed.
    ReadFault,
    /// More bytes came than a scenario may have.
    TooLong,
    /// An allocation was refused.
    NoMemory(NoMemory),
}

impl Early {
    /// The status of such an end.
    pub fn status(self) -> u8
        ensures { result ≡ status_of self }
    {
        match self {
            Early::Usage => 2,
            Early::ReadFault => 3,
            Early::NoMemory(_) => 6,
            Early::TooLong => 7,
        }
    }
}

impl From<WordsFault> for Early {
    ghost from_gives = { λ fault early. early ≡ of_words fault };

    fn from(fault: WordsFault) -> Self {
        match fault {
            WordsFault::Usage => Early::Usage,
            WordsFault::NoMemory(refused) => Early::NoMemory(refused),
        }
    }
}

impl From<ReadEnd> for Early {
    ghost from_gives = { λ end early. early ≡ of_input end };

    fn from(end: ReadEnd) -> Self {
        match end {
            ReadEnd::Fault => Early::ReadFault,
            ReadEnd::TooLong => Early::TooLong,
            ReadEnd::NoMemory(refused) => Early::NoMemory(refused),
        }
    }
}

impl From<NoMemory> for Early {
    ghost from_gives = { λ refused early. early ≡ WantOfMemory refused };

    fn from(refused: NoMemory) -> Self {
        Early::NoMemory(refused)
    }
}
