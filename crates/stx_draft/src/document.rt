// The document that the bytes of a file are, and what is refused in it before there is a scenario.
ghost use Rattle.std.specs.Prelude.{◌≡◌, ◌≢◌, IfOk, IfErr, Some, None};
ghost use Rattle.stx_scenario.specs.Memory.{no_memory};
ghost use Rattle.toml.specs.Errors.{IsMemory};
ghost use Rattle.toml.specs.View.{table_view};
ghost use Rattle.stx_draft.specs.Document.{document_of, early_refusal as refusal_before_duplicates, refused_in as refusal_of};

use crate::declared_names::names_in;
use std::alloc::{AllocError, Global};
use stx_names::duplicate_among;
use stx_refusals::{Fault, ReadFault, Stage, first_among, first_at};
use stx_scenario::NoMemory;
use stx_walk::document_faults;
use toml::Table;
use toml::de::Error;

/// The document that the bytes are: TOML in UTF-8.
#[tactic(auto, using(crate::proofs::DocumentLaws::document_read, crate::proofs::DocumentLaws::document_refused))]
pub fn document_of(alloc: Global, bytes: &[u8]) -> Result<Table, ReadFault>
    ensures ok { IfOk result (λ root. document_of bytes.now ≡ Some (table_view root)) }
    ensures refused { IfErr result (λ fault. fault ≢ ReadFault.NoMemory no_memory → (fault ≡ ReadFault.NotToml) × (document_of bytes.now ≡ None)) }
{
    match toml::table_from_slice(alloc, bytes) {
        Ok(root) => Ok(root),
        Err(error) => {
            if error.is_memory() {
                return Err(ReadFault::NoMemory(want_of_memory(&error)));
            }
            Err(ReadFault::NotToml)
        }
    }
}

/// What the stages refuse before there is a scenario: keys, types, names, numbers and words.
#[tactic(auto, unfolding(crate::specs::Document::refused_in))]
pub fn refused_in(alloc: Global, root: &Table) -> Result<Option<ReadFault>, NoMemory>
    ensures { IfOk result (λ fault. fault ≡ refusal_of (table_view root.now)) }
{
    let faults = document_faults(alloc, root)?;
    let faults = faults.as_slice();
    if let Some(fault) = early_refusal(alloc, faults)? {
        return Ok(Some(fault));
    }
    let names = names_in(alloc, root)?;
    if let Some(fault) = duplicate_among(alloc, &names)? {
        return Ok(Some(fault));
    }
    first_at(alloc, Stage::BadWord, faults)
}

/// What the stages up to names that stand twice refuse: keys, types, names and numbers.
fn early_refusal(alloc: Global, faults: &[Fault]) -> Result<Option<ReadFault>, NoMemory>
    ensures { IfOk result (λ fault. fault ≡ refusal_before_duplicates faults.now) }
{
    let stages = [
        Stage::UnknownKey,
        Stage::Missing,
        Stage::WrongType,
        Stage::BadName,
        Stage::OutOfRange,
        Stage::TooMany,
    ];
    first_among(alloc, &stages, faults)
}

/// The want of memory of which the library tells.
fn want_of_memory(error: &Error) -> NoMemory
    requires { IsMemory error.now }
{
    let _ = error;
    NoMemory::from(AllocError)
}
