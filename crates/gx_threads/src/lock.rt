// A node's cell behind a lock of its own, which keeps that the cell belongs to the set that a name stands for.
ghost use Rattle.gx_cells.specs.CoordViews.{IsSameNode};
ghost use Rattle.gx_cells.specs.Views.{IsSameCell};
ghost use Rattle.gx_threads.specs.Sets.{IsItsCoordinator, IsItsSegment};

use crate::resending::Open;
use gx_cells::{Action, CoordCell, Looked, SegmentCell};
use gx_coord::left::Left;
use gx_ids::{Mem, SessionId};
use gx_outside::{Gate, Journal};
use std::marker::{Brand, Model, PhantomData};
use std::sync::{Mutex, Wait};

/// Names a set of cells, by what stays of the coordinator's and of the segments', in order. Each call picks it.
pub trait SetName {
    ghost use Rattle.std.specs.Prelude.{List};
    ghost use Rattle.std.specs.declared.option.Option.{Option};
    ghost use Rattle.gx_threads.specs.Sets.{CoordId, SegmentId};

    ghost coordinator: { Option CoordId };

    ghost segments: { List SegmentId };
}

impl SetName for Brand {
    ghost use Rattle.std.specs.Prelude.{[], None};

    ghost coordinator = { None };

    ghost segments = { [] };
}

// The coordinator's cell of such a set.
#[derive(Drop)]
struct NamedCoord<J: Journal, N: SetName> {
    cell: CoordCell<J>,
    of: PhantomData<N>,
}

impl<J: Journal, N: SetName> Model for NamedCoord<J, N> {
    ghost use Rattle.std.specs.Coded.{codes};
    ghost use Rattle.gx_tree.specs.contracts.expr.Expr as expr_type;
    ghost use Rattle.gx_tree.specs.contracts.cond.Cond as cond_type;
    ghost use Rattle.gx_dsnap.specs.contracts.snapshot.Snapshot as snapshot_type;
    ghost use Rattle.gx_cells.specs.CoordViews.{CoordView};
    ghost use Rattle.gx_threads.specs.Sets.{IsItsCoordinator};

    ghost Value = { CoordView };

    ghost coded = { Prim.hlevel (codes, expr_type.the_row.coded, cond_type.the_row.coded, snapshot_type.the_row.coded) };

    ghost view = { λ s. s.cell };

    ghost invariant = { λ s. IsItsCoordinator N.coordinator s.cell };
}

impl<J: Journal, N: SetName> NamedCoord<J, N> {
    fn act<R: Wait>(&mut self, rt: &R, action: Action) -> Mem<Looked>
        ensures { IsSameNode self.old self.new }
    {
        self.cell.act(rt, action)
    }
}

/// The coordinator's cell behind its lock.
#[derive(Drop)]
pub struct CoordLock<J: Journal, N: SetName> {
    lock: Mutex<NamedCoord<J, N>>,
}

impl<J: Journal, N: SetName> CoordLock<J, N> {
    pub fn new(cell: CoordCell<J>) -> CoordLock<J, N>
        requires { IsItsCoordinator N.coordinator cell }
    {
        let named: NamedCoord<J, N> = NamedCoord {
            cell,
            of: PhantomData,
        };
        CoordLock {
            lock: Mutex::new(named),
        }
    }

    pub fn into_cell(self) -> CoordCell<J>
        ensures { IsItsCoordinator N.coordinator result }
    {
        let CoordLock { lock } = self;
        let NamedCoord { cell, of: _ } = lock.into_inner();
        cell
    }

    /// Takes the lock, and does an action, if it is to be done then.
    pub fn act<R: Wait>(&self, rt: &R, action: Action) -> Mem<Looked> {
        self.lock.lock(rt).act(rt, action)
    }

    /// Takes the lock, and looks whether some session has something left.
    pub fn unfinished<R: Wait>(&self, rt: &R) -> bool {
        self.lock.lock(rt).cell.unfinished()
    }

    /// Takes the lock, and looks what a session has left.
    pub fn left<R: Wait>(&self, rt: &R, session: SessionId) -> Left {
        self.lock.lock(rt).cell.left(session)
    }

    /// Takes the lock, and looks which transactions have begun and ended since it was looked before.
    pub fn look<R: Wait>(&self, rt: &R, open: &mut Open) -> Mem<()> {
        open.look(self.lock.lock(rt).cell.steps())
    }
}

// A segment's cell of such a set.
#[derive(Drop)]
struct NamedSegment<J: Journal, N: SetName> {
    cell: SegmentCell<J>,
    of: PhantomData<N>,
}

impl<J: Journal, N: SetName> Model for NamedSegment<J, N> {
    ghost use Rattle.std.specs.Coded.{codes};
    ghost use Rattle.gx_tree.specs.contracts.expr.Expr as expr_type;
    ghost use Rattle.gx_tree.specs.contracts.cond.Cond as cond_type;
    ghost use Rattle.gx_dsnap.specs.contracts.snapshot.Snapshot as snapshot_type;
    ghost use Rattle.gx_cells.specs.Views.{SegmentView};
    ghost use Rattle.gx_threads.specs.Sets.{IsItsSegment};

    ghost Value = { SegmentView };

    ghost coded = { Prim.hlevel (codes, expr_type.the_row.coded, cond_type.the_row.coded, snapshot_type.the_row.coded) };

    ghost view = { λ s. s.cell };

    ghost invariant = { λ s. IsItsSegment N.segments s.cell };
}

impl<J: Journal, N: SetName> NamedSegment<J, N> {
    fn act<R: Wait, G: Gate>(&mut self, rt: &R, action: Action, gate: &G) -> Mem<Looked>
        ensures { IsSameCell self.old self.new }
    {
        self.cell.act(rt, action, gate)
    }
}

/// A segment's cell behind its lock.
#[derive(Drop)]
pub struct SegmentLock<J: Journal, N: SetName> {
    lock: Mutex<NamedSegment<J, N>>,
}

impl<J: Journal, N: SetName> SegmentLock<J, N> {
    pub fn new(cell: SegmentCell<J>) -> SegmentLock<J, N>
        requires { IsItsSegment N.segments cell }
    {
        let named: NamedSegment<J, N> = NamedSegment {
            cell,
            of: PhantomData,
        };
        SegmentLock {
            lock: Mutex::new(named),
        }
    }

    pub fn into_cell(self) -> SegmentCell<J>
        ensures { IsItsSegment N.segments result }
    {
        let SegmentLock { lock } = self;
        let NamedSegment { cell, of: _ } = lock.into_inner();
        cell
    }

    /// Takes the lock, and does an action, if it is to be done then.
    pub fn act<R: Wait, G: Gate>(&self, rt: &R, action: Action, gate: &G) -> Mem<Looked> {
        self.lock.lock(rt).act(rt, action, gate)
    }
}
