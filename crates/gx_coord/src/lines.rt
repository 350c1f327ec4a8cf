// A session's lines.
ghost use Rattle.std.specs.Prelude.{◌≡◌, ◌<◌, ◌≤◌, ◌++◌, ◌∷◌, [], ◌^◌, length, IfOk, OnOk};
ghost use Rattle.gx_dtx.specs.Rules.{on_abort};
ghost use Rattle.gx_dtx.specs.Table.{IsActive};
ghost use Rattle.gx_rules.specs.AtCoordinator as turns;
ghost use Rattle.gx_coord.specs.Books.{IsFramed, coord_of};
ghost use Rattle.gx_coord.specs.Locking.{tells_abort};
ghost use Rattle.gx_coord.specs.Turns.{IsTurn};

use crate::answers::push_answer;
use crate::books::{find_session, forget_work, set_session, set_work};
use crate::coord::Coord;
use crate::locking::give_back;
use crate::work::{Session, Work};
use gx_ids::{Gxid, Mem, Seq, SessionId};
use gx_msg::Out;
use gx_script::Plain;
use gx_store::{Mark, StmtAnswer};
use gx_tree::Level;
use std::alloc::Global;

// A transaction of a session begins.
pub(crate) fn begin(
    alloc: Global,
    coord: &mut Coord,
    id: SessionId,
    level: Level,
    marks: &mut Vec<Mark>,
) -> Mem<Gxid>
    requires room { coord.old.dtx.next.0 ≤ 2 ^ 62 }
    requires inside { id.0 < length coord.old.sessions.items }
    ensures gxid { IfOk result (λ gxid. gxid ≡ coord.old.dtx.next) }
    ensures framed { OnOk result (IsFramed coord.old coord.new) }
    ensures coord { OnOk result (coord_of coord.new ≡ turns.begins (coord_of coord.old) id level) }
    ensures marks { OnOk result (marks.new.items ≡ marks.old.items ++ Mark.Start coord.old.dtx.next id ∷ []) }
{
    let gxid = coord.dtx.begin()?;
    let work = Work {
        session: id,
        level,
        last: 0,
        snapshot: None,
        writers: Seq::new(alloc),
        command: None,
        waiting: None,
    };
    set_work(coord, gxid, work)?;
    let session = find_session(coord, id);
    set_session(
        coord,
        id,
        Session {
            transaction: gxid,
            ..session
        },
    );
    marks.push(Mark::Start { gxid, session: id })?;
    Ok(gxid)
}

// A line is answered at once.
pub(crate) fn answer_at_once(
    coord: &Coord,
    id: SessionId,
    answer: StmtAnswer,
    marks: &mut Vec<Mark>,
) -> Mem<()>
    ensures { OnOk result (marks.new.items ≡ marks.old.items ++ (turns.answers_at_once (coord_of coord.now) id answer).marks) }
{
    let session = find_session(coord, id);
    push_answer(marks, id, session.lines, answer)
}

pub(crate) fn plain_answer(plain: Plain) -> StmtAnswer
    ensures { result ≡ turns.plain_answer_of plain }
{
    match plain {
        Plain::Begin => StmtAnswer::Begin,
        Plain::Commit => StmtAnswer::Commit,
        Plain::Rollback => StmtAnswer::Rollback,
    }
}

// A transaction aborts, and nothing of it is known but its locks.
pub(crate) fn abort(coord: &mut Coord, gxid: Gxid, marks: &mut Vec<Mark>) -> Mem<Seq<Out>>
    requires { IsActive coord.old.dtx gxid }
    ensures turn { OnOk result (IsTurn coord.old coord.new marks.old.items marks.new.items (tells_abort (coord_of coord.old) gxid (on_abort coord.old.dtx gxid))) }
    ensures outs { IfOk result (λ outs. outs ≡ (on_abort coord.old.dtx gxid).out.outs) }
{
    marks.push(Mark::Abort { gxid })?;
    let out = coord.dtx.abort(&mut coord.spare.outs, gxid)?;
    forget_work(coord, gxid);
    Ok(out.outs)
}

// A transaction aborts, and gives its locks back.
pub(crate) fn roll_back(coord: &mut Coord, gxid: Gxid, marks: &mut Vec<Mark>) -> Mem<Seq<Out>>
    requires { IsActive coord.old.dtx gxid }
    ensures turn { OnOk result (IsTurn coord.old coord.new marks.old.items marks.new.items (turns.rolls_back (coord_of coord.old) gxid [] (on_abort coord.old.dtx gxid))) }
    ensures outs { IfOk result (λ outs. outs ≡ (on_abort coord.old.dtx gxid).out.outs) }
{
    let outs = abort(coord, gxid, marks)?;
    give_back(coord, gxid, marks)?;
    Ok(outs)
}
