// The options of the command line, each as it is declared and as its value is read.
ghost use Rattle.std.specs.Prelude.{◌≡◌, false, option_and_then, option_map, unwrap_or};
ghost use Rattle.clap.specs.Words.{app_of, found_of, rows_of, rule_of};
ghost use Rattle.stx_words.specs.Options.{plain_app, do_rule, seed_rule, clients_rule, job_in, seed_in, clients_in, client_count, IsClientCount};
ghost use Rattle.stx_words.specs.Jobs.{load_in};

use crate::Load;
use clap::{Arg, ArgMatches, Command, value_parser};
use std::alloc::Global;

/// A command line of this name, without the flag for help that `clap` would add.
pub(crate) fn plain_command<'a>(alloc: Global, name: &'a str) -> Command<'a>
    ensures { app_of result ≡ plain_app name.entry.now }
{
    Command::new(alloc, name).disable_help_flag(true)
}

/// `--do JOB`, which must be given.
pub(crate) fn do_option<'a>(alloc: Global) -> Arg<'a>
    ensures rule { rule_of result ≡ do_rule }
    ensures own { result.global ≡ false }
{
    Arg::new(alloc, "do").long("do").required(true)
}

/// `--seed N`, a number of 64 bits.
pub(crate) fn seed_option<'a>(alloc: Global) -> Arg<'a>
    ensures rule { rule_of result ≡ seed_rule }
    ensures own { result.global ≡ false }
{
    Arg::new(alloc, "seed")
        .long("seed")
        .value_parser(value_parser!(u64))
        .default_value("1")
}

/// `--clients N`, a number from 1 to 64.
pub(crate) fn clients_option<'a>(alloc: Global) -> Arg<'a>
    ensures rule { rule_of result ≡ clients_rule }
    ensures own { result.global ≡ false }
{
    Arg::new(alloc, "clients")
        .long("clients")
        .value_parser(value_parser!(u32).range(1..=64))
        .default_value("4")
}

/// The word under `--do`.
pub(crate) fn job_in<'a>(matches: &ArgMatches<'a>) -> Option<&'a str>
    ensures { option_map (λ word. word.now) result ≡ job_in (rows_of (found_of matches.now)) }
{
    matches.get_str("do")
}

/// The numbers under `--seed` and `--clients`.
pub(crate) fn load_in(matches: &ArgMatches<'_>) -> Load
    ensures numbers { result ≡ load_in (rows_of (found_of matches.now)) }
    ensures range { IsClientCount result.clients }
{
    Load {
        seed: seed_in(matches),
        clients: clients_in(matches),
    }
}

/// The number under `--seed`.
fn seed_in(matches: &ArgMatches<'_>) -> u64
    ensures { result ≡ seed_in (rows_of (found_of matches.now)) }
{
    matches.get_one("seed").unwrap_or(1)
}

/// The number under `--clients`, from 1 to 64.
fn clients_in(matches: &ArgMatches<'_>) -> u32
    ensures number { result ≡ clients_in (rows_of (found_of matches.now)) }
    ensures range { IsClientCount result }
{
    count_or_default(matches.get_one("clients"))
}

fn count_or_default(number: Option<u32>) -> u32
    ensures number { result ≡ unwrap_or (option_and_then client_count number) 4 }
    ensures range { IsClientCount result }
{
    match number {
        Some(count) if 1 <= count && count <= 64 => count,
        _ => 4,
    }
}
