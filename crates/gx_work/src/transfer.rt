// Transfers, and the words that they are drawn from.
ghost use Rattle.std.specs.Prelude.{◌≡◌, ◌++◌, ◌<◌, ◌+◌, ◌^◌, IfOk, OnOk, length};
ghost use Rattle.gx_work.specs.Text.{transfers_from};

use gx_ids::Mem;
use std::alloc::Global;

/// What a session moves, from which account to which.
#[derive(Clone, Copy)]
pub struct Transfer {
    pub session: u64,
    pub from: u64,
    pub to: u64,
    pub amount: u64,
}

// Adds the transfers of the sessions from this one on.
fn push_transfers(transfers: &mut Vec<Transfer>, session: u64, words: &[u64]) -> Mem<()>
    requires { session + length words.now < 2 ^ 64 }
    ensures { OnOk result (transfers.new.items ≡ transfers.old.items ++ transfers_from session words.now) }
{
    let [from, to, amount, others @ ..] = words else {
        return Ok(());
    };
    transfers.push(Transfer {
        session,
        from: from % 64,
        to: to % 64,
        amount: 1 + amount % 9,
    })?;
    push_transfers(transfers, session + 1, others)?;
    Ok(())
}

/// The transfers of a batch: three words for each session, from the first on.
pub fn transfers_of(alloc: Global, words: &[u64]) -> Mem<Vec<Transfer>>
    requires { length words.now ≡ 24 }
    ensures { IfOk result (λ transfers. transfers.items ≡ transfers_from 1 words.now) }
{
    let mut transfers = Vec::new(alloc);
    push_transfers(&mut transfers, 1, words)?;
    Ok(transfers)
}
