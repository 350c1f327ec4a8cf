// The lines of the batches.
ghost use Rattle.std.specs.Prelude.{◌≡◌, ◌≤◌, ◌++◌, ◌+◌, ◌*◌, IfOk, OnOk, drop, length, take};
ghost use Rattle.std.specs.List.{flat_map};
ghost use Rattle.gx_work.specs.Text.{account_text, amount_text, begin_line, commit_line, give_line, opening_text, batch_text, batches_text, session_text, take_line, update_text};

use crate::transfer::{Transfer, transfers_of};
use gx_ids::Mem;
use gx_text::{push_bytes, push_count};
use std::alloc::Global;

fn push_session(text: &mut Vec<u8>, session: u64) -> Mem<()>
    ensures { OnOk result (text.new.items ≡ text.old.items ++ session_text session) }
{
    push_bytes(text, b"s")?;
    push_count(text, u128::from(session))?;
    push_bytes(text, b": ")
}

fn push_begin(text: &mut Vec<u8>, transfer: Transfer) -> Mem<()>
    ensures { OnOk result (text.new.items ≡ text.old.items ++ begin_line transfer) }
{
    push_session(text, transfer.session)?;
    push_bytes(text, b"BEGIN ISOLATION LEVEL REPEATABLE READ\n")
}

fn push_commit(text: &mut Vec<u8>, transfer: Transfer) -> Mem<()>
    ensures { OnOk result (text.new.items ≡ text.old.items ++ commit_line transfer) }
{
    push_session(text, transfer.session)?;
    push_bytes(text, b"COMMIT\n")
}

fn push_opening(text: &mut Vec<u8>, session: u64) -> Mem<()>
    ensures { OnOk result (text.new.items ≡ text.old.items ++ opening_text session) }
{
    push_session(text, session)?;
    push_bytes(text, b"UPDATE acct SET bal = bal ")
}

fn push_amount(text: &mut Vec<u8>, amount: u64) -> Mem<()>
    ensures { OnOk result (text.new.items ≡ text.old.items ++ amount_text amount) }
{
    push_count(text, u128::from(amount))?;
    push_bytes(text, b" WHERE id = ")
}

fn push_account(text: &mut Vec<u8>, account: u64) -> Mem<()>
    ensures { OnOk result (text.new.items ≡ text.old.items ++ account_text account) }
{
    push_count(text, u128::from(account))?;
    push_bytes(text, b"\n")
}

// An update of one account, by this sign.
fn push_update(text: &mut Vec<u8>, session: u64, sign: &[u8], amount: u64, account: u64) -> Mem<()>
    ensures { OnOk result (text.new.items ≡ text.old.items ++ update_text session sign.now amount account) }
{
    push_opening(text, session)?;
    push_bytes(text, sign)?;
    push_amount(text, amount)?;
    push_account(text, account)
}

fn push_take(text: &mut Vec<u8>, transfer: Transfer) -> Mem<()>
    ensures { OnOk result (text.new.items ≡ text.old.items ++ take_line transfer) }
{
    push_update(
        text,
        transfer.session,
        b"- ",
        transfer.amount,
        transfer.from,
    )
}

fn push_give(text: &mut Vec<u8>, transfer: Transfer) -> Mem<()>
    ensures { OnOk result (text.new.items ≡ text.old.items ++ give_line transfer) }
{
    push_update(text, transfer.session, b"+ ", transfer.amount, transfer.to)
}

fn push_begins(text: &mut Vec<u8>, transfers: &[Transfer]) -> Mem<()>
    ensures { OnOk result (text.new.items ≡ text.old.items ++ flat_map begin_line transfers.now) }
{
    for transfer in transfers {
        push_begin(text, *transfer)?;
    }
    Ok(())
}

fn push_takes(text: &mut Vec<u8>, transfers: &[Transfer]) -> Mem<()>
    ensures { OnOk result (text.new.items ≡ text.old.items ++ flat_map take_line transfers.now) }
{
    for transfer in transfers {
        push_take(text, *transfer)?;
    }
    Ok(())
}

fn push_gives(text: &mut Vec<u8>, transfers: &[Transfer]) -> Mem<()>
    ensures { OnOk result (text.new.items ≡ text.old.items ++ flat_map give_line transfers.now) }
{
    for transfer in transfers {
        push_give(text, *transfer)?;
    }
    Ok(())
}

fn push_commits(text: &mut Vec<u8>, transfers: &[Transfer]) -> Mem<()>
    ensures { OnOk result (text.new.items ≡ text.old.items ++ flat_map commit_line transfers.now) }
{
    for transfer in transfers {
        push_commit(text, *transfer)?;
    }
    Ok(())
}

// Four passes over the sessions.
fn push_batch(alloc: Global, text: &mut Vec<u8>, words: &[u64]) -> Mem<()>
    requires { length words.now ≡ 24 }
    ensures { OnOk result (text.new.items ≡ text.old.items ++ batch_text words.now) }
{
    let transfers = transfers_of(alloc, words)?;
    push_begins(text, transfers.as_slice())?;
    push_takes(text, transfers.as_slice())?;
    push_gives(text, transfers.as_slice())?;
    push_commits(text, transfers.as_slice())
}

// A batch of the first 24 words, and the words behind it.
fn push_next<'a>(alloc: Global, text: &mut Vec<u8>, words: &'a [u64]) -> Mem<&'a [u64]>
    requires { 24 ≤ length words.now }
    ensures text { OnOk result (text.new.items ≡ text.old.items ++ batch_text (take 24 words.entry.now)) }
    ensures left { IfOk result (λ left. left.now ≡ drop 24 words.entry.now) }
    ensures fewer { IfOk result (λ left. length left.now + 24 ≡ length words.entry.now) }
{
    let (here, left) = words.split_at(24);
    push_batch(alloc, text, here)?;
    Ok(left)
}

/// Adds the lines of this many batches, 24 words each.
pub fn push_batches(alloc: Global, text: &mut Vec<u8>, count: usize, words: &[u64]) -> Mem<()>
    requires { length words.now ≡ 24 * count }
    ensures { OnOk result (text.new.items ≡ text.old.items ++ batches_text count words.now) }
{
    let mut left = words;
    for _batch in 0..count {
        let others = push_next(alloc, text, left)?;
        left = others;
    }
    Ok(())
}
