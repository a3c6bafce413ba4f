// What a command line makes of words.
ghost use Rattle.std.specs.Prelude.{◌≡◌, ◌≢◌, ◌∷◌, [], true, map, string_bytes, IfOk, IfErr};
ghost use Rattle.clap.specs.Values.{kind_of};
ghost use Rattle.clap.specs.Words.{app_of, fault_of, found_of, is_simple_and_free, matches_of, rows_of};

use crate::WordsFault;
use clap::error::ErrorKind;
use clap::{ArgMatches, Command, Error};
use std::alloc::{AllocError, Global};
use stx_scenario::NoMemory;

/// The words with the program's name before them, as `clap` wants them.
pub(crate) fn with_name<'a>(
    alloc: Global,
    name: &'a str,
    words: &'a [String],
) -> Result<Vec<&'a str>, NoMemory>
    ensures { IfOk result (λ all. map (λ word. word.now) all.items ≡ name.now ∷ map string_bytes words.now) }
{
    let mut all = vec![in alloc; name]?;
    for word in words {
        all.push(word.as_str())?;
    }
    Ok(all)
}

/// The values that the words give to the options of a command line.
pub(crate) fn matches_from<'a>(
    command: Command<'a>,
    words: &'a [&'a str],
) -> Result<ArgMatches<'a>, WordsFault>
    requires { is_simple_and_free (app_of command) ≡ true }
    ensures sound { IfOk result (λ _. fault_of (app_of command.entry) (map (λ word. word.now) words.now) ≡ []) }
    ensures rows { IfOk result (λ matches. rows_of (found_of matches) ≡ matches_of (app_of command.entry) (map (λ word. word.now) words.now)) }
    ensures usage { IfErr result (λ fault. fault ≡ WordsFault.Usage → fault_of (app_of command.entry) (map (λ word. word.now) words.now) ≢ []) }
{
    match command.try_get_matches_from(words) {
        Ok(matches) => Ok(matches),
        Err(error) if error.kind() == ErrorKind::OutOfMemory => {
            Err(WordsFault::NoMemory(want_of_memory(&error)))
        }
        Err(_) => Err(WordsFault::Usage),
    }
}

/// The want of memory of which the library tells.
fn want_of_memory(error: &Error) -> NoMemory
    requires { kind_of error.now ≡ ErrorKind.OutOfMemory }
{
    let _ = error;
    NoMemory::from(AllocError)
}
