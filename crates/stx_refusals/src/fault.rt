// Why no scenario is read, and the faults that a walk meets.
ghost use Rattle.std.specs.Prelude.{◌≡◌, string_bytes};
ghost use Rattle.stx_refusals.specs.declared.fault.ReadFault.TheVariants.{NoMemory as WantOfMemory};

use std::marker::Model;
use stx_scenario::NoMemory;
use thiserror::Error;

/// What a refusal names, as its text does: a path, a class, or a method as `BEAN.METHOD`.
#[derive(Debug, Drop)]
pub struct Argument {
    pub text: String,
}

impl Model for Argument {
    ghost use Rattle.std.specs.Prelude.{List, ℕ, string_bytes};
    ghost use Rattle.std.specs.Coded.{coded_list, coded_ℕ};

    ghost Value = { List ℕ };

    ghost coded = { coded_list coded_ℕ };

    ghost view = { λ argument. string_bytes argument.text };
}

impl Argument {
    /// An argument with this text, which takes no memory.
    pub fn from_text(text: String) -> Self
        ensures { result ≡ string_bytes text }
    {
        Argument { text }
    }

    pub fn as_str(&self) -> &str
        ensures { result.now ≡ self.now }
    {
        self.text.as_str()
    }
}

/// Why the bytes of a file state no scenario, or why a scenario isn't valid: the first stage that refuses anything, at
/// the first place that it refuses.
#[derive(Debug, Drop, Error)]
pub enum ReadFault {
    /// The bytes aren't UTF-8 text that is a TOML document.
    #[error("the bytes are no TOML document")]
    NotToml,
    /// A table has a key that the format doesn't give it.
    #[error("an unknown key")]
    UnknownKey(Argument),
    /// A required key isn't there.
    #[error("a missing key")]
    Missing(Argument),
    /// A value has another type than the format gives it.
    #[error("a value of a wrong type")]
    WrongType(Argument),
    /// What has to be a name, or a class name, isn't one.
    #[error("no name")]
    BadName(Argument),
    /// A number is out of its range, or there is no client.
    #[error("a number out of range")]
    OutOfRange(Argument),
    /// An array has more entries than it may have.
    #[error("an array that is too long")]
    TooMany(Argument),
    /// A name stands twice.
    #[error("a name that stands twice")]
    Duplicate(Argument),
    /// A word is none of those that may stand there, or a statement or a rule has no such form.
    #[error("a word that means nothing")]
    BadWord(Argument),
    /// What is named isn't there.
    #[error("a name of nothing")]
    UnknownRef(Argument),
    /// A class is its own ancestor.
    #[error("a cycle of classes")]
    ClassCycle(Argument),
    /// A class is more than 64 steps below `Throwable`.
    #[error("a class that is too deep")]
    ClassDepth(Argument),
    /// A statement may not stand in a callback's body.
    #[error("a statement that no callback may hold")]
    CallbackBody(Argument),
    /// A method leads to itself.
    #[error("a cycle of calls")]
    CallCycle(Argument),
    /// A method's rank is over 64.
    #[error("calls that are too deep")]
    CallDepth(Argument),
    /// The weight is over 200,000.
    #[error("too much work")]
    TooLarge,
    #[error("memory ran out")]
    NoMemory(NoMemory),
}

impl From<NoMemory> for ReadFault {
    ghost from_gives = { λ refused fault. fault ≡ WantOfMemory refused };

    fn from(refused: NoMemory) -> Self {
        ReadFault::NoMemory(refused)
    }
}

/// A stage of reading that refuses single places, each by itself.
#[derive(Clone, Copy, Debug, PartialEq, Eq)]
pub enum Stage {
    UnknownKey,
    Missing,
    WrongType,
    BadName,
    OutOfRange,
    TooMany,
    BadWord,
    UnknownRef,
    CallbackBody,
}

/// A place that a stage refuses.
#[derive(Debug, Drop)]
pub struct Fault {
    pub stage: Stage,
    pub path: Argument,
}
