// The words of settings and attributes.
ghost use Rattle.std.specs.Prelude.{◌≡◌, map};
ghost use Rattle.stx_names.specs.Words.{word_in as found_among, mode_in as mode_of, propagation_in as propagation_of, phase_in as phase_of};

use stx_scenario::{Phase, Propagation, SyncMode};

static MODES: [(&str, SyncMode); 3] = [
    ("always", SyncMode::Always),
    ("actual", SyncMode::Actual),
    ("never", SyncMode::Never),
];

static PROPAGATIONS: [(&str, Propagation); 7] = [
    ("required", Propagation::Required),
    ("supports", Propagation::Supports),
    ("mandatory", Propagation::Mandatory),
    ("requires_new", Propagation::RequiresNew),
    ("not_supported", Propagation::NotSupported),
    ("never", Propagation::Never),
    ("nested", Propagation::Nested),
];

static PHASES: [(&str, Phase); 4] = [
    ("before_commit", Phase::BeforeCommit),
    ("after_commit", Phase::AfterCommit),
    ("after_rollback", Phase::AfterRollback),
    ("after_completion", Phase::AfterCompletion),
];

/// When scopes without a transaction have synchronisation (Spring: AbstractPlatformTransactionManager).
pub fn mode_in(text: &str) -> Option<SyncMode>
    ensures { result ≡ mode_of text.now }
{
    word_in(&MODES, text)
}

/// What a call does about the transaction that it meets (Spring: the enum Propagation).
pub fn propagation_in(text: &str) -> Option<Propagation>
    ensures { result ≡ propagation_of text.now }
{
    word_in(&PROPAGATIONS, text)
}

/// When a listener is called (Spring: the enum TransactionPhase).
pub fn phase_in(text: &str) -> Option<Phase>
    ensures { result ≡ phase_of text.now }
{
    word_in(&PHASES, text)
}

/// What the text stands for among these words.
fn word_in<T: Copy>(words: &[(&'static str, T)], text: &str) -> Option<T>
    ensures { result ≡ found_among (map (λ word. (word.0.now, word.1)) words.now) text.now }
{
    for word in words {
        if text == word.0 {
            return Some(word.1);
        }
    }
    None
}
