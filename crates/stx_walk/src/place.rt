// Where values stand in a document. The text of a path is made where it is wanted, which is seldom.
ghost use Rattle.std.specs.Prelude.{◌≡◌, IfOk};
ghost use Rattle.stx_walk.specs.inner.Places.{holder_path as path_of_holder, place_path as path_of_place};

use std::alloc::Global;
use stx_refusals::{Argument, entry, under};
use stx_scenario::NoMemory;

/// What stands at a path, or an entry of the array there.
#[derive(Clone, Copy)]
pub struct Holder<'a> {
    pub path: &'a str,
    pub at: Option<usize>,
}

/// A holder itself, or what stands under a key of it.
#[derive(Clone, Copy)]
pub struct Place<'a> {
    pub holder: Holder<'a>,
    pub key: Option<&'a str>,
}

fn holder_path(alloc: Global, holder: Holder<'_>) -> Result<Argument, NoMemory>
    ensures { IfOk result (λ path. path ≡ path_of_holder holder.entry) }
{
    match holder.at {
        Some(at) => entry(alloc, holder.path, at),
        None => Ok(Argument::from_text(String::from_str(alloc, holder.path)?)),
    }
}

/// The path of a place.
pub fn place_path(alloc: Global, place: Place<'_>) -> Result<Argument, NoMemory>
    ensures { IfOk result (λ path. path ≡ path_of_place place.entry) }
{
    let path = holder_path(alloc, place.holder)?;
    match place.key {
        Some(key) => under(alloc, path.as_str(), key),
        None => Ok(path),
    }
}
