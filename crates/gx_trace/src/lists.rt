// Transactions and edges, one behind the other, to the end of a line.
ghost use Rattle.std.specs.Prelude.{All, IfOk};
ghost use Rattle.std.specs.List.{flat_map};
ghost use Rattle.gx_report.specs.LockText.{edge_text};
ghost use Rattle.gx_report.specs.Words.{gxid_text};
ghost use Rattle.gx_trace.specs.Lawful.{IsEdge, IsGxid};
ghost use Rattle.gx_trace.specs.Lists as of;
ghost use Rattle.gx_trace.specs.Readers.{IsEnd, IsRead, IsReaderOf};

use crate::cursor::Cursor;
use gx_ids::{Gxid, Mem, Seq};
use gx_waits::Edge;
use std::alloc::Global;

impl<'a> Cursor<'a> {
    /// Reads all transactions that stand here, to the end of the line.
    pub fn gxids(&mut self, alloc: Global) -> Mem<Option<Seq<Gxid>>>
        ensures { IfOk result (λ read. IsRead read self.new (of.gxids self.old)) }
    {
        let mut gxids = Seq::new(alloc);
        let most = self.left().len();
        for _step in 0..most {
            if self.is_at_end() {
                return Ok(Some(gxids));
            }
            match self.gxid() {
                Some(gxid) => gxids.push(gxid)?,
                None => return Ok(None),
            }
        }
        if self.is_at_end() {
            Ok(Some(gxids))
        } else {
            Ok(None)
        }
    }

    /// Reads all edges that stand here, to the end of the line. Their order isn't asked.
    pub fn edges(&mut self, alloc: Global) -> Mem<Option<Seq<Edge>>>
        ensures { IfOk result (λ read. IsRead read self.new (of.edges self.old)) }
    {
        let mut edges = Seq::new(alloc);
        let most = self.left().len();
        for _step in 0..most {
            if self.is_at_end() {
                return Ok(Some(edges));
            }
            match self.edge() {
                Some(edge) => edges.push(edge)?,
                None => return Ok(None),
            }
        }
        if self.is_at_end() {
            Ok(Some(edges))
        } else {
            Ok(None)
        }
    }

    fn dotting(&mut self) -> Option<bool>
        ensures { IsRead result self.new (of.dotting self.old) }
    {
        let left = self.left();
        match self.skip(b"~") {
            Some(()) => Some(true),
            None => {
                self.go_to(left);
                Some(false)
            }
        }
    }

    fn edge(&mut self) -> Option<Edge>
        ensures { IsRead result self.new (of.edge self.old) }
    {
        let waiter = self.gxid()?;
        self.skip(b">")?;
        let holder = self.wide()?;
        let dotted = self.dotting()?;
        Some(Edge {
            waiter,
            holder: Gxid(holder),
            dotted,
        })
    }
}

/// Lists of transactions are read as they are printed.
pub fn gxids_are_read()
    ensures { IsReaderOf (flat_map gxid_text) (All IsGxid) IsEnd of.gxids }
{}

/// Lists of edges are read as they are printed.
pub fn edges_are_read()
    ensures { IsReaderOf (flat_map edge_text) (All IsEdge) IsEnd of.edges }
{}
