// The words as `clap` reads them.
ghost use Rattle.std.specs.Prelude.{◌≡◌, ◌≢◌, [], IfErr, IfOk, OnOk, false, map, string_bytes};
ghost use Rattle.clap.specs.Walk.{rows_of, rule_of};
ghost use Rattle.clap.specs.Matches.{found_of};
ghost use Rattle.clap.specs.Simple.{app_of, matches_of};
ghost use Rattle.clap.specs.Faults.{fault_of};
ghost use Rattle.clap.specs.Values.{kind_of};
ghost use Rattle.clap.specs.declared.error.kind.ErrorKind.TheVariants as kind;
ghost use Rattle.gx_words.specs.Command as of;
ghost use Rattle.gx_words.specs.declared.command.WordsFault.TheVariants as words_fault;

use clap::error::ErrorKind;
use clap::{Arg, ArgAction, ArgMatches, Command, Error};
use std::alloc::{AllocError, Global};

/// Why words give no options: they aren't in the language, or memory ran out.
#[derive(Clone, Copy)]
pub enum WordsFault {
    Usage,
    OutOfMemory,
}

// An option with a value.
fn valued<'a>(alloc: Global, name: &'a str) -> Arg<'a>
    ensures rule { rule_of result ≡ of.valued name.entry.now }
    ensures local { result.global ≡ false }
{
    Arg::new(alloc, name).long(name)
}

// A flag.
fn flagged<'a>(alloc: Global, name: &'a str) -> Arg<'a>
    ensures rule { rule_of result ≡ of.flagged name.entry.now }
    ensures local { result.global ≡ false }
{
    Arg::new(alloc, name).long(name).action(ArgAction::SetTrue)
}

fn bare<'a>(alloc: Global) -> Command<'a>
    ensures { app_of result ≡ of.bare }
{
    Command::new(alloc, "gx")
        .no_binary_name(true)
        .disable_help_flag(true)
}

fn command<'a>(alloc: Global) -> Result<Command<'a>, AllocError>
    ensures { IfOk result (λ c. app_of c ≡ of.command) }
{
    let start = bare(alloc);
    let seed = valued(alloc, "seed");
    let turns = valued(alloc, "turns");
    let work = valued(alloc, "gen");
    let trace = flagged(alloc, "trace");
    let threads = flagged(alloc, "threads");
    let one = start.arg(seed)?;
    let two = one.arg(turns)?;
    let three = two.arg(work)?;
    let four = three.arg(trace)?;
    let all = four.arg(threads)?;
    Ok(all)
}

fn of_error(error: Error) -> WordsFault
    ensures usage { result ≡ words_fault.Usage → kind_of error ≢ kind.OutOfMemory }
    ensures memory { result ≡ words_fault.OutOfMemory → kind_of error ≡ kind.OutOfMemory }
{
    match error.kind() {
        ErrorKind::OutOfMemory => WordsFault::OutOfMemory,
        _ => WordsFault::Usage,
    }
}

// What `clap` finds in the words by this command.
fn parsed_by<'a>(command: Command<'a>, words: &'a [String]) -> Result<ArgMatches<'a>, WordsFault>
    requires { app_of command ≡ of.command }
    ensures fine { OnOk result (fault_of of.command (map string_bytes words.entry.now) ≡ []) }
    ensures found { IfOk result (λ m. rows_of (found_of m) ≡ matches_of of.command (map string_bytes words.entry.now)) }
    ensures refused { fault_of of.command (map string_bytes words.entry.now) ≡ [] → IfErr result (λ f. f ≢ words_fault.Usage) }
{
    match command.try_get_matches_from(words) {
        Ok(matches) => Ok(matches),
        Err(error) => Err(of_error(error)),
    }
}

/// What `clap` finds in the words.
pub fn parsed<'a>(alloc: Global, words: &'a [String]) -> Result<ArgMatches<'a>, WordsFault>
    ensures fine { OnOk result (fault_of of.command (map string_bytes words.entry.now) ≡ []) }
    ensures found { IfOk result (λ m. rows_of (found_of m) ≡ matches_of of.command (map string_bytes words.entry.now)) }
    ensures refused { fault_of of.command (map string_bytes words.entry.now) ≡ [] → IfErr result (λ f. f ≢ words_fault.Usage) }
{
    match command(alloc) {
        Ok(command) => parsed_by(command, words),
        Err(_error) => Err(WordsFault::OutOfMemory),
    }
}
