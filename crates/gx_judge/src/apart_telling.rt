// What is told of a run of nodes apart.
ghost use Rattle.std.specs.Prelude.{◌≡◌, ◌++◌, IfOk, codes, length};
ghost use Rattle.gx_report.specs.Text.{answers_text};
ghost use Rattle.gx_store.specs.Points.{marks_of};
ghost use Rattle.gx_store.specs.View.{AreFinalFrom};
ghost use Rattle.gx_judge.specs.Apart.{IsFront, IsToldApart, text_by};

use gx_ids::Mem;
use gx_report::{answers, push_trace, summary, text};
use gx_script::Script;
use gx_store::Run;
use gx_text::push_bytes;
use gx_tree::KeyedRow;
use gx_words::Options;
use std::alloc::Global;

/// Its answers and its tables, or the line on generated work; or its answers so far, where it isn't whole. Behind these its trace, where
/// it is asked for.
pub fn text_apart(
    alloc: Global,
    script: &Script,
    options: Options,
    run: &Run,
    is_whole: bool,
    tables: &[Vec<KeyedRow>],
) -> Mem<Vec<u8>>
    requires all { length tables.now ≡ length script.now.tables }
    requires rows { AreFinalFrom 0 (marks_of run.now) tables.now }
    ensures { IfOk result (λ text. IsToldApart options script.now run.now is_whole text.items) }
{
    let mut text = front_text(alloc, script, options.work, run, is_whole, tables)?;
    if options.trace {
        push_trace(alloc, &mut text, script, run)?;
    }
    Ok(text)
}

fn front_text(
    alloc: Global,
    script: &Script,
    work: Option<u64>,
    run: &Run,
    is_whole: bool,
    tables: &[Vec<KeyedRow>],
) -> Mem<Vec<u8>>
    requires all { length tables.now ≡ length script.now.tables }
    requires rows { AreFinalFrom 0 (marks_of run.now) tables.now }
    ensures { IfOk result (λ text. IsFront work script.now run.now is_whole text.items) }
{
    if is_whole {
        text_with(alloc, script, work, run, tables)
    } else {
        unfinished_text(alloc, script, run)
    }
}

fn unfinished_text(alloc: Global, script: &Script, run: &Run) -> Mem<Vec<u8>>
    ensures { IfOk result (λ text. text.items ≡ answers_text script.now run.now ++ codes "unfinished\n") }
{
    let mut text = answers(alloc, script, run)?;
    push_bytes(&mut text, b"unfinished\n")?;
    Ok(text)
}

fn text_with(
    alloc: Global,
    script: &Script,
    work: Option<u64>,
    run: &Run,
    tables: &[Vec<KeyedRow>],
) -> Mem<Vec<u8>>
    ensures { IfOk result (λ text. text.items ≡ text_by work script.now run.now tables.now) }
{
    match work {
        Some(number) => summary(alloc, number, script, run, tables),
        None => text(alloc, script, run, tables),
    }
}
