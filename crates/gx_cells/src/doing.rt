// A node's cell does an action.
ghost use Rattle.std.specs.Prelude.{◌≡◌, ◌==◌, true, false, IfOk, IsErr, OnErr, OnOk};
ghost use Rattle.gx_cells.specs.CoordViews.{IsSameNode};
ghost use Rattle.gx_cells.specs.Done.{HasDoneHere, HasDoneThere, HasReceivedFrom};
ghost use Rattle.gx_cells.specs.Views.{IsSameCell};

use crate::action::Action;
use crate::coord_cell::CoordCell;
use crate::looked::Looked;
use crate::segment_cell::SegmentCell;
use gx_ids::{Mem, Node};
use gx_outside::{Gate, Journal};
use std::sync::Wait;

impl<J: Journal> CoordCell<J> {
    /// Does an action, if it is to be done now.
    pub fn act<R: Wait>(&mut self, rt: &R, action: Action) -> Mem<Looked>
        ensures same { IsSameNode self.old self.new }
        ensures done { IfOk result (HasDoneHere action self.old self.new) }
        ensures unspent { OnOk result (self.new.spent ≡ false) }
        ensures err { OnErr result (self.new.spent ≡ true) }
        ensures again { self.old.spent ≡ true → IsErr result }
    {
        match action {
            Action::Receive(from) => self.receive(rt, from),
            Action::Resume => self.resume(rt),
            Action::Start(session) => self.start(rt, session),
            Action::End(session) => self.end(rt, session),
            Action::Resend(segment, gxid) => self.resend(rt, segment, gxid),
            Action::Round => self.round(rt),
        }
    }
}

impl<J: Journal> SegmentCell<J> {
    /// Does an action, if it is to be done now. A segment receives and resumes, and does nothing by itself.
    pub fn act<R: Wait, G: Gate>(&mut self, rt: &R, action: Action, gate: &G) -> Mem<Looked>
        ensures same { IsSameCell self.old self.new }
        ensures done { IfOk result (HasDoneThere action self.old self.new) }
        ensures unspent { OnOk result (self.new.spent ≡ false) }
        ensures err { OnErr result (self.new.spent ≡ true) }
        ensures again { self.old.spent ≡ true → IsErr result }
    {
        match action {
            Action::Receive(from) => self.receive_from(rt, from, gate),
            Action::Resume => self.resume(rt, gate),
            _ => self.not_now(),
        }
    }

    // Receives from the coordinator, and from no other node.
    fn receive_from<R: Wait, G: Gate>(&mut self, rt: &R, from: Node, gate: &G) -> Mem<Looked>
        ensures same { IsSameCell self.old self.new }
        ensures done { IfOk result (HasReceivedFrom (from.0 == 0) self.old self.new) }
        ensures unspent { OnOk result (self.new.spent ≡ false) }
        ensures err { OnErr result (self.new.spent ≡ true) }
        ensures again { self.old.spent ≡ true → IsErr result }
    {
        if from.0 == 0 {
            self.receive(rt, gate)
        } else {
            self.not_now()
        }
    }
}
