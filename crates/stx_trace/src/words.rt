// The words that stand for the choices of a line.
ghost use Rattle.std.specs.Prelude.{◌≡◌};
ghost use Rattle.stx_base.specs.Lines as texts;

use stx_base::{Ending, Kind};
use stx_scenario::Propagation;

pub fn propagation_word(propagation: Propagation) -> &'static str
    ensures { result.now ≡ texts.propagation_word propagation }
{
    match propagation {
        Propagation::Required => "required",
        Propagation::Supports => "supports",
        Propagation::Mandatory => "mandatory",
        Propagation::RequiresNew => "requires_new",
        Propagation::NotSupported => "not_supported",
        Propagation::Never => "never",
        Propagation::Nested => "nested",
    }
}

pub fn kind_word(kind: Kind) -> &'static str
    ensures { result.now ≡ texts.kind_word kind }
{
    match kind {
        Kind::Fresh => "fresh",
        Kind::Join => "join",
        Kind::Point => "point",
        Kind::Empty => "empty",
    }
}

pub fn ending_word(ending: Ending) -> &'static str
    ensures { result.now ≡ texts.ending_word ending }
{
    match ending {
        Ending::Commit => "commit",
        Ending::Rollback => "rollback",
        Ending::Unexpected => "unexpected",
    }
}

/// The word for what rules decide: `rollback` where the transaction rolls back, else `keep`.
pub fn decision_word(rollback: bool) -> &'static str
    ensures { result.now ≡ texts.decision_word rollback }
{
    if rollback { "rollback" } else { "keep" }
}

pub fn completion_word(committed: bool) -> &'static str
    ensures { result.now ≡ texts.completion_word committed }
{
    if committed {
        "committed"
    } else {
        "rolled_back"
    }
}

/// The text where the flag is set, else nothing.
pub fn where_set(flag: bool, text: &str) -> &str
    ensures { result.now ≡ texts.where_set flag text.now }
{
    if flag { text } else { "" }
}
