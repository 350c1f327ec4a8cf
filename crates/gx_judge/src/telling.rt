// What is told of a run in which an append was refused.
ghost use Rattle.std.specs.Prelude.{◌≡◌, ◌++◌, IfOk, OnOk};
ghost use Rattle.std.specs.List.{flat_map};
ghost use Rattle.gx_drive.specs.declared.end.End.TheVariants.{Stuck, Turns};
ghost use Rattle.gx_judge.specs.Telling as of;

use crate::asked::Asked;
use gx_drive::End;
use gx_ids::Mem;
use gx_outside::{Journal, JournalMem};
use gx_report::{answers, push_stuck, push_trace, push_turns_spent, text};
use gx_text::{push_bytes, push_count};
use gx_waits::LocalGraph;
use gx_words::Options;
use gx_world::World;
use std::alloc::Global;

/// Nothing where no append is to be refused; else the text of the run, and how often the journals have failed.
pub fn text_for(
    alloc: Global,
    world: &World,
    asked: Asked,
    end: End,
    journals: &[JournalMem],
) -> Mem<Vec<u8>>
    ensures { IfOk result (λ text. of.IsText asked.refused asked.options world.now.script world.now.run end journals.now text.items) }
{
    match asked.refused {
        Some(_) => told(alloc, world, asked.options, end, journals),
        None => Ok(Vec::new(alloc)),
    }
}

fn told(
    alloc: Global,
    world: &World,
    options: Options,
    end: End,
    journals: &[JournalMem],
) -> Mem<Vec<u8>>
    ensures { IfOk result (λ text. of.IsToldText options world.now.script world.now.run end journals.now text.items) }
{
    let mut text = end_text(alloc, world, end)?;
    push_behind(alloc, &mut text, world, options, journals)?;
    Ok(text)
}

// The run's own text, where it is asked for, and how often the journals have failed.
fn push_behind(
    alloc: Global,
    text: &mut Vec<u8>,
    world: &World,
    options: Options,
    journals: &[JournalMem],
) -> Mem<()>
    ensures { OnOk result (text.new.items ≡ text.old.items ++ of.behind_end options world.now.script world.now.run journals.now) }
{
    if options.trace {
        push_trace(alloc, text, world.script(), world.run())?;
    }
    push_faults(text, journals)
}

// How often the journal of each node has failed, on a line.
fn push_faults(text: &mut Vec<u8>, journals: &[JournalMem]) -> Mem<()>
    ensures { OnOk result (text.new.items ≡ text.old.items ++ of.faults_line journals.now) }
{
    push_bytes(text, b"failed appends:")?;
    push_counts(text, journals)?;
    push_bytes(text, b"\n")
}

fn push_counts(text: &mut Vec<u8>, journals: &[JournalMem]) -> Mem<()>
    ensures { OnOk result (text.new.items ≡ text.old.items ++ flat_map of.faults_text journals.now) }
{
    for journal in journals {
        push_bytes(text, b" ")?;
        push_count(text, u128::from(journal.faults()))?;
    }
    Ok(())
}

// What is told by how the run ended.
fn end_text(alloc: Global, world: &World, end: End) -> Mem<Vec<u8>>
    ensures { IfOk result (λ text. of.IsEndText world.now.script world.now.run end text.items) }
{
    match end {
        End::Done => whole_text(alloc, world),
        End::Turns => spent_text(alloc, world),
        End::Stuck(graphs) => stuck_text(alloc, world, graphs.as_slice()),
    }
}

fn whole_text(alloc: Global, world: &World) -> Mem<Vec<u8>>
    ensures { IfOk result (λ text. of.IsWholeText world.now.script world.now.run text.items) }
{
    let tables = world.final_tables()?;
    text(alloc, world.script(), world.run(), tables.as_slice())
}

fn spent_text(alloc: Global, world: &World) -> Mem<Vec<u8>>
    ensures { IfOk result (λ text. of.IsEndText world.now.script world.now.run Turns text.items) }
{
    let mut text = answers(alloc, world.script(), world.run())?;
    push_turns_spent(&mut text)?;
    Ok(text)
}

fn stuck_text(alloc: Global, world: &World, graphs: &[LocalGraph]) -> Mem<Vec<u8>>
    ensures { IfOk result (λ text. of.IsEndText world.now.script world.now.run (Stuck graphs.now) text.items) }
{
    let mut text = answers(alloc, world.script(), world.run())?;
    push_stuck(alloc, &mut text, graphs)?;
    Ok(text)
}
