// Whether a mark of a command may stand at a point.
ghost use Rattle.std.specs.Prelude.{◌↔◌, IfOk, IsTrue};
ghost use Rattle.gx_store.specs.Faults.{LegalFault};
ghost use Rattle.gx_store.specs.Language.{IsScript};
ghost use Rattle.gx_store.specs.Writes.{LegalSkip, LegalWrite};
ghost use Rattle.gx_legal.specs.Deeds.{IsByEither};
ghost use Rattle.gx_legal.specs.Moments.{point_of};

use crate::command::RowAt;
use crate::deed::{Act, Deed};
use crate::late::is_late;
use crate::moment::Moment;
use crate::own::own_marks;
use crate::working::is_by_command;
use gx_ids::{Cid, Gxid, Mem, Node, Rid, Table};
use gx_tree::Row;
use std::alloc::Global;

// A command under way does so, or one that was late does.
fn is_by_either(
    alloc: Global,
    moment: &Moment<'_, '_>,
    command: (Gxid, Cid),
    live: Act<'_>,
    late: Act<'_>,
) -> Mem<bool>
    requires { IsScript moment.now.script.now }
    ensures { IfOk result (λ is. IsTrue is ↔ IsByEither moment.now.script.now (point_of moment.now) command.0 command.1 live.entry late.entry) }
{
    let own = own_marks(moment, command.0);
    let live = Deed {
        gxid: command.0,
        cid: command.1,
        marks: moment.before,
        own,
        act: live,
    };
    if is_by_command(alloc, moment, &live)? {
        return Ok(true);
    }
    let late = Deed {
        gxid: command.0,
        cid: command.1,
        marks: moment.before,
        own,
        act: late,
    };
    is_late(alloc, moment, &late)
}

/// Whether the command may write this image of the row, at its node and in its table.
pub fn is_legal_write(
    alloc: Global,
    moment: &Moment<'_, '_>,
    command: (Gxid, Cid),
    row: (Node, Table, Rid),
    image: &Option<Row>,
) -> Mem<bool>
    requires { IsScript moment.now.script.now }
    ensures { IfOk result (λ is. IsTrue is ↔ LegalWrite moment.now.script.now (point_of moment.now) command.0 command.1 row.0 row.1 row.2 image.now) }
{
    let (node, table, rid) = row;
    let row = RowAt { node, table, rid };
    is_by_either(
        alloc,
        moment,
        command,
        Act::Write { row, image },
        Act::LateWrite { row, image },
    )
}

/// Whether the command may leave the row as it is.
pub fn is_legal_skip(
    alloc: Global,
    moment: &Moment<'_, '_>,
    command: (Gxid, Cid),
    rid: Rid,
) -> Mem<bool>
    requires { IsScript moment.now.script.now }
    ensures { IfOk result (λ is. IsTrue is ↔ LegalSkip moment.now.script.now (point_of moment.now) command.0 command.1 rid) }
{
    is_by_either(alloc, moment, command, Act::Skip(rid), Act::LateSkip)
}

/// Whether an evaluation of the command may fault on this image of the row.
pub fn is_legal_fault(
    alloc: Global,
    moment: &Moment<'_, '_>,
    command: (Gxid, Cid),
    rid: Rid,
    image: &Option<Row>,
) -> Mem<bool>
    requires { IsScript moment.now.script.now }
    ensures { IfOk result (λ is. IsTrue is ↔ LegalFault moment.now.script.now (point_of moment.now) command.0 command.1 rid image.now) }
{
    is_by_either(
        alloc,
        moment,
        command,
        Act::Fault { rid, image },
        Act::LateFault,
    )
}
