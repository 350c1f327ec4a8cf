ghost use Rattle.std.specs.Prelude.{◌≡◌, ◌<◌, ◌^◌, [], true, false, None, IfOk, OnOk, OnErr, IsErr};
ghost use Rattle.gx_outside.specs.Shelves.{IsLater};
ghost use Rattle.gx_node.specs.Orders.{IsLaterBy};
ghost use Rattle.gx_rules.specs.AtSegment.{seg_rule};
ghost use Rattle.gx_rules.specs.Machine.{seg_can};
ghost use Rattle.gx_rules.specs.Segments.{Seg, new_segment};
ghost use Rattle.gx_rules.specs.Sending.{heard_in};
ghost use Rattle.gx_rules.specs.Shown.{shown};
ghost use Rattle.gx_segment.specs.Steps.{HasStepped, IsSegment, delivered, nobody, no_command};

use crate::collecting::LastReport;
use crate::stepping::{receive_on, step_on};
use gx_dsnap::Snapshot;
use gx_ids::{Cid, Gxid, Mem, Node, OutOfMemory, Table};
use gx_locks::LockTable;
use gx_msg::Message;
use gx_outside::{Gate, Journal};
use gx_script::Script;
use gx_slices::{Held, LocalStore};
use gx_store::{Mark, NodeEvent};
use gx_tree::KeyedRow;
use std::alloc::Global;
use std::collections::{BTreeMap, BTreeSet};
use std::sync::Arc;

/// A segment of a script: the rows that are placed there, the transactions that have come to it, their locks, and what it has told
/// the last round. The horizon is that of the rows' store, which doesn't tell it. Once memory has run out in a step the segment is
/// spent, and answers the same from then on.
#[derive(Drop)]
pub struct Segment {
    alloc: Global,
    pub node: Node,
    pub script: Arc<Script, Global>,
    pub held: Held,
    pub horizon: Gxid,
    pub report: LastReport,
    pub sent: u64,
    pub clock: u64,
    pub spent: bool,
}

impl Segment {
    /// A segment to which nothing has come.
    pub fn new(alloc: Global, node: Node, script: Arc<Script, Global>) -> Mem<Segment>
        ensures new { IfOk result (λ segment. IsSegment segment (new_segment node)) }
        ensures fresh { IfOk result (λ segment. segment.spent ≡ false) }
        ensures script { IfOk result (λ segment. segment.script ≡ script) }
    {
        let held = Held {
            store: LocalStore::new(alloc, script.tables.as_slice())?,
            entries: BTreeMap::new(alloc),
            holders: BTreeSet::new(alloc),
            locks: LockTable::new(alloc, node)?,
        };
        Ok(Segment {
            alloc,
            node,
            script,
            held,
            horizon: Gxid(0),
            report: LastReport::new(),
            sent: 0,
            clock: 0,
            spent: false,
        })
    }

    /// Does one event that the rule admits, by the segment's rule: a delivery, or that a slice goes on whose wait is ready. What the
    /// envelope holds is tested here; what doesn't fit changes nothing but the clock. The journal takes the items of PREPARE, COMMIT and COMMIT PREPARED before they are answered.
    /// Each slice enters the gate first, at this node. What it did is told by its marks, the answer that it sends among them, in the list
    /// that is lent for them.
    pub fn step<J: Journal, G: Gate>(
        &mut self,
        event: NodeEvent,
        journal: &mut J,
        gate: &G,
        marks: &mut Vec<Mark>,
    ) -> Mem<()>
        ghost s: { Seg }
        requires is { self.old.spent ≡ false → IsSegment self.old s }
        requires admitted { seg_can self.old.script.value s event ≡ true }
        requires clock { self.old.clock < 2 ^ 62 }
        requires heard { heard_in event < 2 ^ 62 }
        requires numbers { self.old.sent < 2 ^ 62 }
        requires blank { marks.old.items ≡ [] }
        ensures stepped { OnOk result (HasStepped self.old self.new s event (J.shelf journal.old) (J.shelf journal.new) marks.new.items) }
        ensures later { IsLater (J.shelf journal.old) (J.shelf journal.new) }
        ensures item { IsLaterBy (J.shelf journal.old) (J.shelf journal.new) (seg_rule self.old.script.value s event false).item }
        ensures spent { OnErr result (self.new.spent ≡ true) }
        ensures again { self.old.spent ≡ true → IsErr result }
        ensures untouched { self.old.spent ≡ true → (J.shelf journal.new).items ≡ (J.shelf journal.old).items }
    {
        if self.spent {
            drop(event);
            return Err(OutOfMemory);
        }
        self.spent = true;
        step_on(
            self.alloc,
            self.node,
            &self.script,
            &mut self.held,
            &mut self.horizon,
            &mut self.report,
            &mut self.sent,
            &mut self.clock,
            event,
            journal,
            gate,
            marks,
        )?;
        self.spent = false;
        Ok(())
    }

    /// The same of the delivery of a message that is lent, with its number, its sender's clock and its incarnation.
    pub fn receive<J: Journal, G: Gate>(
        &mut self,
        from: Node,
        number: u64,
        clock: u64,
        incarnation: u64,
        message: &Message,
        journal: &mut J,
        gate: &G,
        marks: &mut Vec<Mark>,
    ) -> Mem<()>
        ghost s: { Seg }
        requires is { self.old.spent ≡ false → IsSegment self.old s }
        requires admitted { seg_can self.old.script.value s (delivered from number clock incarnation message.now) ≡ true }
        requires clock { self.old.clock < 2 ^ 62 }
        requires heard { clock < 2 ^ 62 }
        requires numbers { self.old.sent < 2 ^ 62 }
        requires blank { marks.old.items ≡ [] }
        ensures stepped { OnOk result (HasStepped self.old self.new s (delivered from number clock incarnation message.now) (J.shelf journal.old) (J.shelf journal.new) marks.new.items) }
        ensures later { IsLater (J.shelf journal.old) (J.shelf journal.new) }
        ensures item { IsLaterBy (J.shelf journal.old) (J.shelf journal.new) (seg_rule self.old.script.value s (delivered from number clock incarnation message.now) false).item }
        ensures spent { OnErr result (self.new.spent ≡ true) }
        ensures again { self.old.spent ≡ true → IsErr result }
        ensures untouched { self.old.spent ≡ true → (J.shelf journal.new).items ≡ (J.shelf journal.old).items }
    {
        if self.spent {
            return Err(OutOfMemory);
        }
        self.spent = true;
        receive_on(
            self.alloc,
            self.node,
            &self.script,
            &mut self.held,
            &mut self.horizon,
            &mut self.report,
            &mut self.sent,
            &mut self.clock,
            from,
            number,
            clock,
            incarnation,
            message,
            journal,
            gate,
            marks,
        )?;
        self.spent = false;
        Ok(())
    }

    /// The rows of a table that a reader without a transaction is shown, by their identities.
    pub fn final_rows(&self, snapshot: &Snapshot, table: Table) -> Mem<Vec<KeyedRow>>
        ghost s: { Seg }
        requires { IsSegment self.now s }
        ensures rows { IfOk result (λ rows. rows.items ≡ shown s snapshot.now nobody no_command table) }
    {
        let rows = self.held.store.shown_rows(table, snapshot, None, Cid(0))?;
        Ok(rows)
    }
}
