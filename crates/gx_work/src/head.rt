// The lines before the batches.
ghost use Rattle.std.specs.Prelude.{◌≡◌, ◌++◌, OnOk};
ghost use Rattle.gx_work.specs.Text.{head_text, load_text, pair_text, pairs_from};

use gx_ids::Mem;
use gx_text::{push_bytes, push_count};

fn push_pair(text: &mut Vec<u8>, account: u64) -> Mem<()>
    ensures { OnOk result (text.new.items ≡ text.old.items ++ pair_text account) }
{
    push_bytes(text, b"(")?;
    push_count(text, u128::from(account))?;
    push_bytes(text, b", 100)")
}

// The pairs of accounts behind the first.
fn push_pairs(text: &mut Vec<u8>, accounts: u64) -> Mem<()>
    ensures { OnOk result (text.new.items ≡ text.old.items ++ pairs_from 0 accounts) }
{
    for account in 0..accounts {
        push_bytes(text, b", ")?;
        push_pair(text, account + 1)?;
    }
    Ok(())
}

fn push_load(text: &mut Vec<u8>) -> Mem<()>
    ensures { OnOk result (text.new.items ≡ text.old.items ++ load_text) }
{
    push_pair(text, 0)?;
    push_pairs(text, 63)?;
    push_bytes(text, b"\n")
}

/// Adds the heads and the line that loads the accounts.
pub fn push_head(text: &mut Vec<u8>) -> Mem<()>
    ensures { OnOk result (text.new.items ≡ text.old.items ++ head_text) }
{
    push_bytes(
        text,
        b"segments 4\ntable acct (id bigint, bal bigint) distributed by (id)\nload: INSERT INTO acct VALUES ",
    )?;
    push_load(text)?;
    Ok(())
}
