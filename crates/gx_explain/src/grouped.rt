// Where in the line of a group its fault is.
ghost use Rattle.std.specs.Prelude.{◌≡◌, IfOk};
ghost use Rattle.gx_sql.specs.Held.{IsHeld, named};
ghost use Rattle.gx_explain.specs.Places as of;

use crate::parts::before_listed;
use gx_ids::Mem;
use gx_lex::Token;
use gx_lines::GroupSyn;
use gx_sql::groups::{before_standing, is_group};
use gx_sql::progress::Progress;
use std::alloc::Global;

/// How many tokens stand before the name of a group or of a session that was told already.
pub fn told_place(
    alloc: Global,
    progress: &Progress,
    group: &GroupSyn,
    tokens: &[Token],
) -> Mem<usize>
    requires { IsHeld progress.now }
    ensures { IfOk result (λ place. place ≡ of.told_place progress.now.groups.items (named progress.now.members.entries) group.now tokens.now) }
{
    if is_group(progress.groups.as_slice(), group.name.as_slice()) {
        return Ok(1);
    }
    let place = progress.groups.len() as u32;
    let before = before_standing(alloc, &progress.members, group.sessions.as_slice(), place)?;
    Ok(before_listed(5, before, tokens))
}
