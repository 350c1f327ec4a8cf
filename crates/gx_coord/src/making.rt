// What a coordinator holds that has done nothing.
ghost use Rattle.std.specs.Prelude.{◌≡◌, ◌+◌, IfOk, replicate};
ghost use Rattle.gx_coord.specs.Books.{fresh_session};

use crate::work::Session;
use gx_ids::{Gxid, Mem};
use gx_script::SessionState;
use std::alloc::Global;

fn new_session() -> Session
    ensures { result ≡ fresh_session }
{
    Session {
        state: SessionState::new(),
        lines: 0,
        transaction: Gxid(0),
    }
}

pub(crate) fn new_sessions(alloc: Global, count: usize) -> Mem<Vec<Session>>
    ensures { IfOk result (λ sessions. sessions.items ≡ replicate count fresh_session) }
{
    let mut sessions = Vec::with_capacity(alloc, count)?;
    for _session in 0..count {
        sessions.push(new_session())?;
    }
    Ok(sessions)
}

// No message was sent to the coordinator and to each of the segments.
pub(crate) fn nothing_sent(alloc: Global, segments: u8) -> Mem<Vec<u64>>
    ensures { IfOk result (λ sent. sent.items ≡ replicate (segments + 1) 0) }
{
    let links = usize::from(segments) + 1;
    let mut sent = Vec::with_capacity(alloc, links)?;
    for _link in 0..links {
        sent.push(0)?;
    }
    Ok(sent)
}
