// Reads whole scripts.
ghost use Rattle.std.specs.Prelude.{◌≡◌, ◌≤◌, ◌<◌, ◌+◌, ◌-◌, ◌^◌, List, Result, Ok, map, length, vec_len, OnOk, IfOk};
ghost use Rattle.gx_script.specs.declared.Script.{Script};
ghost use Rattle.gx_sql.specs.Answering.{Adds, Answers, Is, Steps};
ghost use Rattle.gx_sql.specs.Held.{named, schemas, progress_of, IsHeld};
ghost use Rattle.gx_store.specs.Language.{IsScript};
ghost use Rattle.gx_sql.specs.Groups.{groups_from};
ghost use Rattle.gx_sql.specs.Lines.{lines_of};
ghost use Rattle.gx_sql.specs.Progress.{start};
ghost use Rattle.gx_sql.specs.Script as of;
ghost use Rattle.gx_sql.specs.declared.refusal.Refusal.{Refusal};

use crate::groups::{GroupHead, all_groups};
use crate::progress::Progress;
use crate::refusal::{Limit, LineError, LineFault, Refusal};
use crate::split::{first_line, is_skipped};
use gx_ids::{Mem, OutOfMemory, Seq};
use gx_lex::Token;
use gx_script::{LinkFault, Script, SlotGroup};
use gx_tree::{Schema, Txt};
use indexmap::{IndexMap, IndexSet};
use std::alloc::Global;

const LINES: u32 = 100_000;

fn refused(number: u32, fault: LineFault) -> Refusal
    ensures { result ≡ of.refused number fault }
{
    match fault {
        LineFault::Syntax => Refusal::Syntax(number),
        LineFault::UnknownTable => Refusal::UnknownTable(number),
        LineFault::UnknownColumn => Refusal::UnknownColumn(number),
        LineFault::TableExists => Refusal::TableExists(number),
        LineFault::TypeMismatch => Refusal::TypeMismatch(number),
        LineFault::KeyUpdate => Refusal::KeyUpdate(number),
        LineFault::TooMany(limit) => Refusal::TooMany(number, limit),
    }
}

/// Reads the line of this number. The list is for its tokens.
fn read_line<'t>(
    alloc: Global,
    progress: &mut Progress,
    tokens: &mut Vec<Token<'t>>,
    number: u32,
    line: &'t [u8],
) -> Result<(), Refusal>
    requires held { IsHeld progress.old }
    requires short { vec_len progress.old.lines < 2 ^ 32 - 1 }
    ensures said { Steps number line.now (progress_of progress.old) result (progress_of progress.new) }
    ensures held { OnOk result (IsHeld progress.new) }
    ensures lines { vec_len progress.new.lines ≤ vec_len progress.old.lines + 1 }
{
    if is_skipped(line) {
        return Ok(());
    }
    match progress.read_line(alloc, tokens, line) {
        Ok(()) => Ok(()),
        Err(LineError::Fault(fault)) => Err(refused(number, fault)),
        Err(LineError::OutOfMemory) => Err(Refusal::OutOfMemory),
    }
}

fn all_tables(alloc: Global, tables: IndexMap<Vec<u8>, Schema>) -> Mem<Seq<Schema>>
    ensures { IfOk result (λ s. s ≡ schemas tables.entries) }
{
    Ok(Seq::from_vec(tables.into_values().collect(alloc)?))
}

#[tactic(auto, using(crate::proofs::Held::names_named))]
fn all_sessions(alloc: Global, sessions: IndexMap<Vec<u8>, u32>) -> Mem<Seq<Txt>>
    ensures { IfOk result (λ s. s ≡ map (λ s. s.0) (named sessions.entries)) }
{
    let names = sessions
        .into_iter()
        .map(|(name, _lines)| Txt::from_vec(name));
    Ok(Seq::from_vec(names.collect(alloc)?))
}

fn all_faults(alloc: Global, faults: IndexSet<LinkFault>) -> Mem<Seq<LinkFault>>
    ensures { IfOk result (λ s. s ≡ faults.keys) }
{
    Ok(Seq::from_vec(faults.into_iter().collect(alloc)?))
}

/// Both values, where there was memory for both.
fn both<A: Drop, B: Drop>(first: Mem<A>, second: Mem<B>) -> Mem<(A, B)>
    ensures { IfOk result (λ r. (first ≡ Ok r.0) × (second ≡ Ok r.1)) }
{
    match first {
        Ok(first) => match second {
            Ok(second) => Ok((first, second)),
            Err(OutOfMemory) => {
                drop(first);
                Err(OutOfMemory)
            }
        },
        Err(OutOfMemory) => {
            drop(second);
            Err(OutOfMemory)
        }
    }
}

/// The names of sessions, and the groups in which these stand.
fn with_groups(
    alloc: Global,
    names: Seq<Txt>,
    groups: &[GroupHead],
    members: &IndexMap<Vec<u8>, u32>,
) -> Mem<(Seq<Txt>, Seq<SlotGroup>)>
    requires { length names ≤ 64 }
    ensures names { IfOk result (λ r. r.0 ≡ names) }
    ensures groups { IfOk result (λ r. r.1 ≡ groups_from (named members.now.entries) names 0 groups.now) }
{
    match all_groups(alloc, groups, members, names.as_slice()) {
        Ok(groups) => Ok((names, groups)),
        Err(OutOfMemory) => {
            drop(names);
            Err(OutOfMemory)
        }
    }
}

/// The script of all lines.
fn into_script(alloc: Global, segments: u64, progress: Progress) -> Mem<Script>
    requires segments { segments ≤ 16 }
    requires sessions { length progress.sessions.entries ≤ 64 }
    ensures { IfOk result (λ s. s ≡ of.script_of segments (progress_of progress)) }
{
    let Progress {
        detector,
        tables,
        sessions,
        lines,
        faults,
        groups,
        members,
        ..
    } = progress;
    let heads = both(all_tables(alloc, tables), all_faults(alloc, faults));
    let named = match all_sessions(alloc, sessions) {
        Ok(names) => with_groups(alloc, names, groups.as_slice(), &members),
        Err(OutOfMemory) => Err(OutOfMemory),
    };
    drop(groups);
    drop(members);
    match both(heads, named) {
        Ok(((tables, faults), (sessions, groups))) => Ok(Script {
            segments: segments as u8,
            detector: detector.unwrap_or(true),
            tables,
            sessions,
            lines: Seq::from_vec(lines),
            faults,
            groups,
            restarts: Seq::from_vec(Vec::new(alloc)),
        }),
        Err(OutOfMemory) => {
            drop(lines);
            Err(OutOfMemory)
        }
    }
}

/// What is answered behind the last line.
fn ended(alloc: Global, progress: Progress, number: u32) -> Result<Script, Refusal>
    requires { IsHeld progress }
    ensures { Answers (λ r. r ≡ of.ended number (progress_of progress) progress.segments) result }
{
    match progress.segments {
        None => {
            drop(progress);
            Err(Refusal::Syntax(number))
        }
        Some(segments) => match into_script(alloc, segments, progress) {
            Ok(script) => Ok(script),
            Err(OutOfMemory) => Err(Refusal::OutOfMemory),
        },
    }
}

/// Adds what the lines of bytes say up to the first with a fault, and gives the number that a line behind the last would have.
fn add_lines<'t>(
    alloc: Global,
    progress: &mut Progress,
    tokens: &mut Vec<Token<'t>>,
    bytes: &'t [u8],
) -> Result<u32, Refusal>
    requires held { IsHeld progress.old }
    requires none { vec_len progress.old.lines ≤ 0 }
    ensures added { Adds (progress_of progress.old) (lines_of bytes.now) (progress_of progress.new) result }
    ensures held { OnOk result (IsHeld progress.new) }
{
    let mut rest = bytes;
    for number in 1..LINES + 1 {
        match first_line(rest) {
            None => return Ok(number),
            Some((line, others)) => match read_line(alloc, progress, tokens, number, line) {
                Ok(()) => rest = others,
                Err(refusal) => return Err(refusal),
            },
        }
    }
    match first_line(rest) {
        None => Ok(LINES + 1),
        Some(_) => Err(Refusal::TooMany(LINES + 1, Limit::Lines)),
    }
}

fn read_lines(alloc: Global, bytes: &[u8]) -> Result<Script, Refusal>
    ensures { Answers (of.ReadsOn 1 start (lines_of bytes.now)) result }
{
    let mut progress = Progress::new(alloc);
    let mut tokens = Vec::new(alloc);
    let added = add_lines(alloc, &mut progress, &mut tokens, bytes);
    drop(tokens);
    match added {
        Ok(number) => ended(alloc, progress, number),
        Err(refusal) => {
            drop(progress);
            Err(refusal)
        }
    }
}

/// Reads the bytes of a script. The bytes are UTF-8; each line ends with a line feed, which the last one may lack, and a
/// carriage return directly before it is dropped. The first line with a fault decides.
pub fn parse_script(alloc: Global, bytes: &[u8]) -> Result<Script, Refusal>
    requires { length bytes.now < 2 ^ 32 }
    // The answer is what the bytes are read as, unless memory ran out.
    ensures reads { Answers (of.Reads bytes.now) result }
    // They are read as nothing else.
    ensures only { (r : Result Script Refusal) → of.Reads bytes.now r → Is result r }
    // A script that was read keeps the rules and the limits of the language.
    ensures language { IfOk result IsScript }
{
    match std::str::from_utf8(bytes) {
        Ok(_) => read_lines(alloc, bytes),
        Err(error) => Err(Refusal::NotUtf8(error.valid_up_to() as u64)),
    }
}
