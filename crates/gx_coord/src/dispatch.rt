// A command goes out.
ghost use Rattle.std.specs.Prelude.{◌≡◌, ◌<◌, ◌+◌, ◌^◌, [], Err, IfOk, IfSome, None, OnOk, Ok, Some, false, length, option_map, slice_get, true};
ghost use Rattle.std.specs.List.{list_any};
ghost use Rattle.gx_dtx.specs.Table.{IsActive};
ghost use Rattle.gx_eval.specs.Faults.{eval_fault};
ghost use Rattle.gx_waits.specs.Claims.{is_of};
ghost use Rattle.gx_meaning.specs.declared.fault.ArithFault.{ArithFault as Fault};
ghost use Rattle.gx_meaning.specs.Statements.{IsStmtOf};
ghost use Rattle.gx_rules.specs.AtCoordinator as turns;
ghost use Rattle.gx_rules.specs.Coordinators.{with_work};
ghost use Rattle.gx_store.specs.Language.{IsScript};
ghost use Rattle.gx_store.specs.Locks as legal;
ghost use Rattle.gx_coord.specs.Books.{IsFramed, command_of, coord_of, stmt_at};
ghost use Rattle.gx_coord.specs.Faults.{HasConstants, IsCommand, is_short as has_short, planned as rule_plan};
ghost use Rattle.gx_coord.specs.Sound.{IsDrawn};
ghost use Rattle.gx_coord.specs.Turns.{IsBusy, IsTurn};

use crate::answers::refusal;
use crate::books::set_work;
use crate::completing::level_of;
use crate::coord::Coord;
use crate::faults::push_fault;
use crate::locking::take_lock;
use crate::orders::{Ordering, copied, enlist_all, nodes, orders};
use crate::replies::refuse;
use crate::snapshots::read_for;
use crate::work::{Command, Work, taken};
use gx_dsnap::Snapshot;
use gx_entries::{find, place_of};
use gx_eval::EvalFault;
use gx_ids::{Cid, Gxid, Mem, OutOfMemory, Seq, SessionId, Shared, Table};
use gx_meaning::{ArithFault, Piece};
use gx_msg::Out;
use gx_node::table_lock;
use gx_plan::plan_in;
use gx_script::Script;
use gx_store::Mark;
use gx_tree::{Level, Schema, Stmt};
use gx_waits::Claim;
use std::alloc::Global;
use std::sync::Arc;

// The number of a transaction's next command.
fn next_cid(coord: &Coord, gxid: Gxid) -> Cid
    requires { ((coord_of coord.now).works gxid.0).last + 1 < 2 ^ 32 }
    ensures { result ≡ turns.next_cid ((coord_of coord.now).works gxid.0) }
{
    match find(coord.works.as_slice(), gxid) {
        Some(work) => Cid(work.last + 1),
        None => Cid(1),
    }
}

// A command is under way.
fn set_command(alloc: Global, coord: &mut Coord, gxid: Gxid, command: Command) -> Mem<()>
    ensures framed { OnOk result (IsFramed coord.old coord.new) }
    ensures coord { OnOk result (coord_of coord.new ≡ with_work (coord_of coord.old) gxid
        (record ((coord_of coord.old).works gxid.0) { last = command.cid.0; command = Some (command_of coord.old.script.value.lines command) })) }
{
    if let Some(place) = place_of(coord.works.as_slice(), gxid) {
        let work = &mut coord.works[place].1;
        work.last = command.cid.0;
        work.command = Some(command);
        return Ok(());
    }
    let work = Work {
        session: SessionId(0),
        level: Level::ReadCommitted,
        last: command.cid.0,
        snapshot: None,
        writers: Seq::new(alloc),
        command: Some(command),
        waiting: None,
    };
    set_work(coord, gxid, work)
}

// A command is under way from now on; its orders are what goes out.
fn begin_command(alloc: Global, coord: &mut Coord, gxid: Gxid, command: Command) -> Mem<Seq<Out>>
    ensures framed { OnOk result (IsFramed coord.old coord.new) }
    ensures coord { OnOk result (coord_of coord.new ≡ with_work (coord_of coord.old) gxid
        (record ((coord_of coord.old).works gxid.0) { last = command.cid.0; command = Some (command_of coord.old.script.value.lines command) })) }
    ensures outs { IfOk result (λ outs. outs ≡ command.orders) }
{
    match copied(alloc, &mut coord.spare.outs, command.orders.as_slice()) {
        Ok(outs) => match set_command(alloc, coord, gxid, command) {
            Ok(()) => Ok(outs),
            Err(fault) => {
                drop(outs);
                Err(fault)
            }
        },
        Err(fault) => {
            drop(command);
            Err(fault)
        }
    }
}

// Its pieces go out. The horizon is that of a moment at which the snapshot lives.
fn send(
    alloc: Global,
    coord: &mut Coord,
    gxid: Gxid,
    cid: Cid,
    place: usize,
    snapshot: Option<Snapshot>,
    pieces: Vec<Piece>,
) -> Mem<Seq<Out>>
    requires active { IsActive coord.old.dtx gxid }
    ensures framed { OnOk result (IsFramed coord.old coord.new) }
    ensures coord { OnOk result (coord_of coord.new ≡ (turns.goes_out gxid cid (stmt_at coord.old.script.value.lines place) pieces.items
        (record { coord = coord_of coord.old; snapshot = snapshot; marks = [] })).coord) }
    ensures outs { IfOk result (λ outs. outs ≡ (turns.goes_out gxid cid (stmt_at coord.old.script.value.lines place) pieces.items
        (record { coord = coord_of coord.old; snapshot = snapshot; marks = [] })).outs) }
{
    let of = Ordering {
        gxid,
        cid,
        level: level_of(coord, gxid),
        snapshot: Shared::new(alloc, snapshot)?,
        horizon: coord.dtx.horizon(),
    };
    let awaited = nodes(alloc, &mut coord.spare.awaited, pieces.as_slice())?;
    enlist_all(&mut coord.dtx, gxid, awaited.as_slice())?;
    let mut pieces = pieces;
    let orders = orders(alloc, &mut coord.spare.orders, &of, &mut pieces)?;
    coord.spare.pieces = pieces;
    let command = Command {
        line: place,
        cid,
        orders,
        awaited,
        count: 0,
        parts: Seq::from_vec(taken(alloc, &mut coord.spare.parts)),
    };
    begin_command(alloc, coord, gxid, command)
}

// A constant faults before anything is sent.
fn fault(
    alloc: Global,
    coord: &mut Coord,
    gxid: Gxid,
    cid: Cid,
    line: &Stmt,
    fault: ArithFault,
    marks: &mut Vec<Mark>,
) -> Mem<Seq<Out>>
    requires constants { HasConstants line.now }
    requires active { IsActive coord.old.dtx gxid }
    requires busy { IsBusy (coord_of coord.old) gxid.0 }
    ensures turn { OnOk result (IsTurn coord.old coord.new marks.old.items marks.new.items
        (turns.goes gxid cid line.now (record { coord = coord_of coord.old; snapshot = None; marks = [] }) (Err fault))) }
    ensures outs { IfOk result (λ outs. outs ≡ (turns.goes gxid cid line.now (record { coord = coord_of coord.old; snapshot = None; marks = [] }) (Err fault)).outs) }
{
    push_fault(alloc, gxid, cid, line, marks)?;
    refuse(coord, gxid, refusal(fault), marks)
}

// Its pieces go out, or its first fault refuses it.
fn go(
    alloc: Global,
    script: &Script,
    coord: &mut Coord,
    gxid: Gxid,
    cid: Cid,
    place: usize,
    line: &Stmt,
    snapshot: Option<Snapshot>,
    planned: Result<Vec<Piece>, EvalFault>,
    marks: &mut Vec<Mark>,
) -> Mem<Seq<Out>>
    requires line { line.now ≡ stmt_at coord.old.script.value.lines place }
    requires constants { HasConstants line.now }
    requires active { IsActive coord.old.dtx gxid }
    requires busy { IsBusy (coord_of coord.old) gxid.0 }
    requires pieces { IfOk planned (λ pieces. rule_plan script.now gxid cid line.now ≡ Ok pieces.items) }
    requires fault { (fault : Fault) → planned ≡ Err (eval_fault fault) → rule_plan script.now gxid cid line.now ≡ Err fault }
    ensures turn { OnOk result (IsTurn coord.old coord.new marks.old.items marks.new.items
        (turns.goes gxid cid line.now (record { coord = coord_of coord.old; snapshot = snapshot; marks = [] })
        (rule_plan script.now gxid cid line.now))) }
    ensures outs { IfOk result (λ outs. outs ≡ (turns.goes gxid cid line.now (record { coord = coord_of coord.old; snapshot = snapshot; marks = [] }) (rule_plan script.now gxid cid line.now)).outs) }
{
    match planned {
        Ok(pieces) => send(alloc, coord, gxid, cid, place, snapshot, pieces),
        Err(EvalFault::Overflow) => {
            fault(alloc, coord, gxid, cid, line, ArithFault::Overflow, marks)
        }
        Err(EvalFault::DivisionByZero) => {
            fault(
                alloc,
                coord,
                gxid,
                cid,
                line,
                ArithFault::DivisionByZero,
                marks,
            )
        }
        Err(EvalFault::OutOfMemory) => Err(OutOfMemory),
    }
}

// The table of a command.
fn table_of(line: &Stmt) -> Table
    ensures { result.0 ≡ turns.table_of line.now }
{
    match line {
        Stmt::Select(query) => query.get().table,
        Stmt::Insert(table, _) => *table,
        Stmt::Update(table, _, _) => *table,
        Stmt::Delete(table, _) => *table,
        Stmt::Lock(table, _) => *table,
        Stmt::Begin(_) | Stmt::Commit | Stmt::Rollback => Table(0),
    }
}

fn schema_of<'a>(script: &'a Script, line: &Stmt) -> &'a Schema
    requires command { IsCommand line.now }
    requires line { IsStmtOf script.now.tables line.now }
    ensures { slice_get script.now.tables (turns.table_of line.now) ≡ Some result.now }
{
    let table = table_of(line);
    match script.tables.as_slice().get(usize::from(table.0)) {
        Some(schema) => schema,
        None => unreachable!(),
    }
}

// The pieces of a command, or its first fault.
fn plan_line(
    alloc: Global,
    blank: Vec<Piece>,
    script: &Script,
    gxid: Gxid,
    cid: Cid,
    line: &Stmt,
) -> Result<Vec<Piece>, EvalFault>
    requires blank { blank.items ≡ [] }
    requires language { IsScript script.now }
    requires command { IsCommand line.now }
    requires line { IsStmtOf script.now.tables line.now }
    requires short { has_short line.now ≡ true }
    ensures pieces { IfOk result (λ pieces. rule_plan script.now gxid cid line.now ≡ Ok pieces.items) }
    ensures fault { (fault : Fault) → result ≡ Err (eval_fault fault) → rule_plan script.now gxid cid line.now ≡ Err fault }
{
    let schema = schema_of(script, line);
    plan_in(alloc, blank, line, schema, gxid, cid, script.segments)
}

// The statement of the line at a place.
fn line_at(script: &Script, place: usize) -> &Stmt
    requires { place < length script.now.lines }
    ensures { result.now ≡ stmt_at script.now.lines place }
{
    &script.lines.as_slice()[place].stmt
}

// Where its snapshot is taken, its pieces go out, or its first fault refuses it.
fn read_and_go(
    alloc: Global,
    script: &Script,
    coord: &mut Coord,
    gxid: Gxid,
    cid: Cid,
    place: usize,
    line: &Stmt,
    planned: Result<Vec<Piece>, EvalFault>,
    marks: &mut Vec<Mark>,
) -> Mem<Seq<Out>>
    requires line { line.now ≡ stmt_at coord.old.script.value.lines place }
    requires constants { HasConstants line.now }
    requires active { IsActive coord.old.dtx gxid }
    requires drawn { IsDrawn coord.old.dtx }
    requires busy { IsBusy (coord_of coord.old) gxid.0 }
    requires pieces { IfOk planned (λ pieces. rule_plan script.now gxid cid line.now ≡ Ok pieces.items) }
    requires fault { (fault : Fault) → planned ≡ Err (eval_fault fault) → rule_plan script.now gxid cid line.now ≡ Err fault }
    ensures turn { OnOk result (IsTurn coord.old coord.new marks.old.items marks.new.items
        (turns.goes gxid cid line.now (turns.reads_for (coord_of coord.old) gxid cid ((coord_of coord.old).works gxid.0) line.now)
        (rule_plan script.now gxid cid line.now))) }
    ensures outs { IfOk result
        (λ outs. outs ≡ (turns.goes gxid cid line.now (turns.reads_for (coord_of coord.old) gxid cid ((coord_of coord.old).works gxid.0) line.now)
        (rule_plan script.now gxid cid line.now)).outs) }
{
    let snapshot = read_for(alloc, coord, gxid, cid, line, marks)?;
    go(
        alloc, script, coord, gxid, cid, place, line, snapshot, planned, marks,
    )
}

// With its table's lock a command of a transaction goes out to its segments, or its first fault refuses it. The line stands
// at this place of the script.
pub(crate) fn go_locked(
    alloc: Global,
    coord: &mut Coord,
    gxid: Gxid,
    place: usize,
    marks: &mut Vec<Mark>,
) -> Mem<Seq<Out>>
    requires language { IsScript coord.old.script.value }
    requires inside { place < length coord.old.script.value.lines }
    requires command { IsCommand (stmt_at coord.old.script.value.lines place) }
    requires room { ((coord_of coord.old).works gxid.0).last + 1 < 2 ^ 32 }
    requires active { IsActive coord.old.dtx gxid }
    requires drawn { IsDrawn coord.old.dtx }
    requires busy { IsBusy (coord_of coord.old) gxid.0 }
    ensures turn { OnOk result (IsTurn coord.old coord.new marks.old.items marks.new.items (turns.goes_on_locked coord.old.script.value
        (coord_of coord.old) gxid (stmt_at coord.old.script.value.lines place))) }
    ensures outs { IfOk result (λ outs. outs ≡ (turns.goes_on_locked coord.old.script.value (coord_of coord.old) gxid (stmt_at coord.old.script.value.lines place)).outs) }
{
    let script = Arc::try_clone(&coord.script)?;
    let line = line_at(&script, place);
    let cid = next_cid(coord, gxid);
    let blank = taken(alloc, &mut coord.spare.pieces);
    let planned = plan_line(alloc, blank, &script, gxid, cid, line);
    read_and_go(
        alloc, &script, coord, gxid, cid, place, line, planned, marks,
    )
}

// The statement of the line at this place waits, or none does.
pub(crate) fn set_waiting(
    alloc: Global,
    coord: &mut Coord,
    gxid: Gxid,
    waiting: Option<usize>,
) -> Mem<()>
    ensures framed { OnOk result (IsFramed coord.old coord.new) }
    ensures coord { OnOk result (coord_of coord.new ≡ with_work (coord_of coord.old) gxid
        (record ((coord_of coord.old).works gxid.0) { waiting = option_map (stmt_at coord.old.script.value.lines) waiting })) }
{
    if let Some(place) = place_of(coord.works.as_slice(), gxid) {
        let work = &mut coord.works[place].1;
        work.waiting = waiting;
        return Ok(());
    }
    let work = Work {
        session: SessionId(0),
        level: Level::ReadCommitted,
        last: 0,
        snapshot: None,
        writers: Seq::new(alloc),
        command: None,
        waiting,
    };
    set_work(coord, gxid, work)
}

// It takes this lock first, or waits for it.
fn go_with_lock(
    alloc: Global,
    coord: &mut Coord,
    gxid: Gxid,
    place: usize,
    wanted: Claim,
    marks: &mut Vec<Mark>,
) -> Mem<Seq<Out>>
    requires language { IsScript coord.old.script.value }
    requires inside { place < length coord.old.script.value.lines }
    requires command { IsCommand (stmt_at coord.old.script.value.lines place) }
    requires room { ((coord_of coord.old).works gxid.0).last + 1 < 2 ^ 32 }
    requires active { IsActive coord.old.dtx gxid }
    requires drawn { IsDrawn coord.old.dtx }
    requires busy { IsBusy (coord_of coord.old) gxid.0 }
    requires waits_not { list_any (is_of wanted.gxid) coord.old.locks.waits ≡ false }
    ensures turn { OnOk result (IsTurn coord.old coord.new marks.old.items marks.new.items (turns.requests coord.old.script.value
        (coord_of coord.old) gxid (stmt_at coord.old.script.value.lines place) (Some wanted))) }
    ensures outs { IfOk result (λ outs. outs ≡ (turns.requests coord.old.script.value (coord_of coord.old) gxid
        (stmt_at coord.old.script.value.lines place) (Some wanted)).outs) }
{
    let granted = take_lock(coord, wanted, marks)?;
    if granted {
        go_locked(alloc, coord, gxid, place, marks)
    } else {
        set_waiting(alloc, coord, gxid, Some(place))?;
        Ok(Seq::new(alloc))
    }
}

fn lock_at(coord: &Coord, gxid: Gxid, place: usize) -> Option<Claim>
    requires { place < length coord.now.script.value.lines }
    ensures value { result ≡ legal.table_lock coord.now.script.value gxid (stmt_at coord.now.script.value.lines place) }
    ensures own { IfSome result (λ wanted. wanted.gxid ≡ gxid) }
{
    table_lock(&coord.script, gxid, line_at(&coord.script, place))
}

// A command of a transaction takes its table's lock and goes out, or waits.
pub(crate) fn dispatch(
    alloc: Global,
    coord: &mut Coord,
    gxid: Gxid,
    place: usize,
    marks: &mut Vec<Mark>,
) -> Mem<Seq<Out>>
    requires language { IsScript coord.old.script.value }
    requires inside { place < length coord.old.script.value.lines }
    requires command { IsCommand (stmt_at coord.old.script.value.lines place) }
    requires room { ((coord_of coord.old).works gxid.0).last + 1 < 2 ^ 32 }
    requires active { IsActive coord.old.dtx gxid }
    requires drawn { IsDrawn coord.old.dtx }
    requires busy { IsBusy (coord_of coord.old) gxid.0 }
    requires waits_not { list_any (is_of gxid) coord.old.locks.waits ≡ false }
    ensures turn { OnOk result (IsTurn coord.old coord.new marks.old.items marks.new.items (turns.dispatches coord.old.script.value
        (coord_of coord.old) gxid (stmt_at coord.old.script.value.lines place))) }
    ensures outs { IfOk result (λ outs. outs ≡ (turns.dispatches coord.old.script.value (coord_of coord.old) gxid (stmt_at coord.old.script.value.lines place)).outs) }
{
    match lock_at(coord, gxid, place) {
        Some(wanted) => go_with_lock(alloc, coord, gxid, place, wanted, marks),
        None => go_locked(alloc, coord, gxid, place, marks),
    }
}
