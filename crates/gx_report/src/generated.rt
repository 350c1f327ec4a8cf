// The line that tells of a run of generated work.
ghost use Rattle.std.specs.Prelude.{◌≡◌, ◌++◌, IfOk, OnOk, codes, count_by, sum_by};
ghost use Rattle.std.specs.Fmt.{signed_decimal};
ghost use Rattle.gx_report.specs.Summary as of;

use crate::words::push_count_behind;
use gx_ids::Mem;
use gx_script::Script;
use gx_store::{Mark, Run, Steps, StmtAnswer};
use gx_text::{push_bytes, push_integer};
use gx_tree::{KeyedRow, Value};
use std::alloc::Global;

fn says_commit(answer: &StmtAnswer) -> bool
    ensures { result ≡ of.says_commit answer.now }
{
    match answer {
        StmtAnswer::Commit => true,
        _ => false,
    }
}

fn says_refusal(answer: &StmtAnswer) -> bool
    ensures { result ≡ of.says_refusal answer.now }
{
    match answer {
        StmtAnswer::Refused(_) => true,
        _ => false,
    }
}

#[tactic(auto, unfolding(crate::specs::Summary::is_commit))]
fn is_commit(mark: &Mark) -> bool
    ensures { result ≡ of.is_commit mark.now }
{
    match mark {
        Mark::Answer { answer, .. } => says_commit(answer),
        _ => false,
    }
}

#[tactic(auto, unfolding(crate::specs::Summary::is_refusal))]
fn is_refusal(mark: &Mark) -> bool
    ensures { result ≡ of.is_refusal mark.now }
{
    match mark {
        Mark::Answer { answer, .. } => says_refusal(answer),
        _ => false,
    }
}

fn commits_in(marks: &[Mark]) -> usize
    ensures { result ≡ count_by of.is_commit marks.now }
{
    let mut count = 0;
    for mark in marks {
        if is_commit(mark) {
            count += 1;
        }
    }
    count
}

fn refusals_in(marks: &[Mark]) -> usize
    ensures { result ≡ count_by of.is_refusal marks.now }
{
    let mut count = 0;
    for mark in marks {
        if is_refusal(mark) {
            count += 1;
        }
    }
    count
}

fn count_commits(steps: &Steps) -> u128
    ensures { result ≡ sum_by of.commits_in steps.now }
{
    let mut count: u128 = 0;
    for place in 0..steps.len() {
        count += commits_in(steps.at(place).marks()) as u128;
    }
    count
}

fn count_refusals(steps: &Steps) -> u128
    ensures { result ≡ sum_by of.refusals_in steps.now }
{
    let mut count: u128 = 0;
    for place in 0..steps.len() {
        count += refusals_in(steps.at(place).marks()) as u128;
    }
    count
}

fn balance(row: &KeyedRow) -> i64
    ensures { result ≡ of.balance row.now }
{
    match row.row.as_slice().get(1) {
        Some(Value::Int(number)) => *number,
        _ => 0,
    }
}

fn total_balance(rows: &[KeyedRow]) -> i128
    ensures { result ≡ of.total_balance rows.now }
{
    let mut total: i128 = 0;
    for row in rows {
        total += i128::from(balance(row));
    }
    total
}

fn accounts_in(tables: &[Vec<KeyedRow>]) -> &[KeyedRow]
    ensures { result.now ≡ of.accounts_in tables.now }
{
    match tables {
        [] => &[],
        [rows, ..] => rows.as_slice(),
    }
}

fn push_total(text: &mut Vec<u8>, total: i128) -> Mem<()>
    ensures { OnOk result (text.new.items ≡ text.old.items ++ codes ", sum " ++ signed_decimal total ++ codes "\n") }
{
    push_bytes(text, b", sum ")?;
    push_integer(text, total)?;
    push_bytes(text, b"\n")
}

/// The line that tells of a run of generated work that was made from this number. Where the script isn't a generated one, it tells of
/// the first table and of the second value of its rows.
pub fn summary(
    alloc: Global,
    number: u64,
    script: &Script,
    run: &Run,
    tables: &[Vec<KeyedRow>],
) -> Mem<Vec<u8>>
    ensures { IfOk result (λ text. text.items ≡ of.summary_of number script.now run.now tables.now) }
{
    let steps = &run.steps;
    let accounts = accounts_in(tables);
    let mut text = Vec::new(alloc);
    push_count_behind(&mut text, b"gen ", u128::from(number))?;
    push_count_behind(&mut text, b": lines ", script.lines.len() as u128)?;
    push_count_behind(&mut text, b", commits ", count_commits(steps))?;
    push_count_behind(&mut text, b", refusals ", count_refusals(steps))?;
    push_count_behind(&mut text, b", rows ", accounts.len() as u128)?;
    push_total(&mut text, total_balance(accounts))?;
    Ok(text)
}
