//! The words of the command line.
//!
//! It promises that words are read as the command that a short definition gives, over any list of words; that
//! `Usage` comes exactly where it gives none; and that want of memory is answered as such, and as nothing else.
//! It stands on `clap`, which takes a command's name and its values apart and drops one `--`; numbers, their
//! limits and their count are this crate's own. `nfs3_types` has its texts, `thiserror` makes its fault an error.
//!
//! ```text
//! match read_words(alloc, &words)? {
//!     Wanted::Feed { stores, replicas } => feed(stores, replicas),
//!     ..
//! }
//! ```
#![tactic(auto)]

ghost use Rattle.std.specs.Prelude.{◌≡◌, ◌≢◌, IfOk, IfErr, map, false};
ghost use Rattle.std.specs.String.{string_bytes};
ghost use Rattle.clap.specs.Words.{app_of, found_of, kind_of, rows_of, rule_of};
ghost use Rattle.fss_words.specs.Commands.{command_of, meaning};
ghost use Rattle.fss_words.specs.Tree.{fss, values_rule};
ghost use Rattle.fss_words.specs.Parts.{IsTaken, parted, parts_of, values_in};

mod commands;
mod fault;
mod numbers;
mod wanted;

use clap::error::ErrorKind;
use clap::{Arg, ArgMatches, Command, Error};
pub use fault::WordsFault;
use std::alloc::{AllocError, Global};
pub use wanted::{ServePlan, Wanted};

/// A list of texts.
fn values<'a>(alloc: Global) -> Arg<'a>
    ensures rule { rule_of result ≡ values_rule }
    ensures local { result.global ≡ false }
{
    Arg::new(alloc, "values").num_args(0..)
}

/// The commands, each with one list of texts.
fn tree<'a>(alloc: Global) -> Result<Command<'a>, AllocError>
    ensures { IfOk result (λ c. app_of c ≡ fss) }
{
    let feed = Command::new(alloc, "feed").arg(values(alloc))?;
    let work = Command::new(alloc, "work").arg(values(alloc))?;
    let serve = Command::new(alloc, "serve").arg(values(alloc))?;
    Command::new(alloc, "fss")
        .no_binary_name(true)
        .disable_help_flag(true)
        .disable_help_subcommand(true)
        .subcommand(feed)?
        .subcommand(work)?
        .subcommand(serve)
}

/// The matches of the words.
fn take_apart<'a>(alloc: Global, words: &'a [String]) -> Result<ArgMatches<'a>, Error>
    ensures ok { IfOk result (λ m. parts_of m ≡ parted (map string_bytes words.entry.now)) }
    ensures err { IfErr result (λ e. IsTaken (map string_bytes words.entry.now) → kind_of e ≡ ErrorKind.OutOfMemory) }
{
    let fss = tree(alloc)?;
    fss.try_get_matches_from(words)
}

/// What the command with these values asks for.
fn found(alloc: Global, name: &str, values: &[&str]) -> Result<Wanted, WordsFault>
    ensures ok { IfOk result (λ wanted. command_of name.now (map (λ value. value.now) values.now) ≡ Some wanted) }
    ensures err { IfErr result (λ fault. fault ≡ WordsFault.Usage
        → command_of name.now (map (λ value. value.now) values.now) ≡ None) }
{
    match commands::command(alloc, name, values) {
        Ok(Some(wanted)) => Ok(wanted),
        Ok(None) => Err(WordsFault::Usage),
        Err(_) => Err(WordsFault::NoMemory),
    }
}

/// What the command with these matches asks for.
fn entered(alloc: Global, name: &str, matches: &ArgMatches<'_>) -> Result<Wanted, WordsFault>
    ensures ok { IfOk result (λ wanted. command_of name.now (values_in (rows_of (found_of matches.now))) ≡ Some wanted) }
    ensures err { IfErr result (λ fault. fault ≡ WordsFault.Usage
        → command_of name.now (values_in (rows_of (found_of matches.now))) ≡ None) }
{
    match matches.get_strs("values") {
        Some(values) => found(alloc, name, values),
        None => found(alloc, name, &[]),
    }
}

/// What the words ask for. `Usage` says that they are no command.
pub fn read_words(alloc: Global, words: &[String]) -> Result<Wanted, WordsFault>
    ensures ok { IfOk result (λ wanted. meaning (map string_bytes words.now) ≡ Some wanted) }
    ensures err { IfErr result (λ fault. fault ≡ WordsFault.Usage → meaning (map string_bytes words.now) ≡ None) }
{
    match take_apart(alloc, words) {
        Ok(matches) => match matches.subcommand() {
            Some((name, inner)) => entered(alloc, name, inner),
            None => Err(WordsFault::Usage),
        },
        Err(error) => Err(fault_of(&error)),
    }
}

/// Want of memory stays, and all else is no command.
fn fault_of(error: &Error) -> WordsFault
    ensures { result ≡ WordsFault.Usage → kind_of error.now ≢ ErrorKind.OutOfMemory }
{
    if error.kind() == ErrorKind::OutOfMemory {
        WordsFault::NoMemory
    } else {
        WordsFault::Usage
    }
}
