ghost use Rattle.std.specs.Prelude.{◌≡◌, ◌<◌, ◌^◌, ◌∷◌, true, false, [], IfOk, IsErr, OnOk, OnErr, length, map, option_copied, option_map};
ghost use Rattle.std.specs.Option.{option_to_list};
ghost use Rattle.gx_store.specs.Whole.{AreInsertsWhole};
ghost use Rattle.gx_law_locks.specs.Blocked.{DoStayBlocked};
ghost use Rattle.gx_law_writes.specs.Legal.{AreLocksLegal};
ghost use Rattle.gx_law_order.specs.Told.{DoStepsTell};
ghost use Rattle.gx_law_runs.specs.Reached.{IsReached};
ghost use Rattle.gx_law_locks.specs.Legal.{AreRoundsLegal};
ghost use Rattle.gx_rules.specs.AtCoordinator.{is_unfinished_there};
ghost use Rattle.gx_ids.specs.declared.ids.SessionId.{SessionId as Id};
ghost use Rattle.gx_law_runs.specs.Replays.{coordinator_after, is_admitted, world_behind};
ghost use Rattle.gx_rules.specs.Machine.{node_of};
ghost use Rattle.gx_rules.specs.System.{IsSystemRun};
ghost use Rattle.gx_store.specs.Cancelled.{wait_graph};
ghost use Rattle.gx_store.specs.Language.{IsScript};
ghost use Rattle.gx_store.specs.Ordered.{AreOrdered, sent_in};
ghost use Rattle.gx_store.specs.Points.{marks_in, marks_of};
ghost use Rattle.gx_store.specs.Protocol.{DoStepsFollow};
ghost use Rattle.gx_store.specs.Stands.{DoRowsStand};
ghost use Rattle.gx_store.specs.Refusals.{the_coordinator};
ghost use Rattle.gx_store.specs.Runs.{IsLegalHistory};
ghost use Rattle.gx_store.specs.Schedule.{is_any_wait, resumptions, segments_of, sent_message};
ghost use Rattle.gx_store.specs.View.{AreFinalFrom};
ghost use Rattle.gx_store.specs.declared.event.Event.TheVariants.{Resume};
ghost use Rattle.gx_world.specs.Networks.{AreNodesBehind};
ghost use Rattle.gx_world.specs.Worlds.{AreLater, AreLaterBy, HasStepped, kept_for};

use crate::admitting::can;
use crate::graphs::graphs;
use crate::looking::{is_unfinished, message, sent};
use crate::network::{Network, Nodes};
use crate::tables::tables;
use crate::waiting::{any_wait, ready};
use gx_ids::{Gxid, Mem, Node, OutOfMemory};
use gx_msg::Message;
use gx_outside::{Gate, Journal};
use gx_script::Script;
use gx_store::{Event, Run};
use gx_tree::KeyedRow;
use gx_waits::LocalGraph;
use std::alloc::Global;
use std::marker::Model;

/// A script's coordinator and segments, all messages that were ever sent, and the run so far. A message that was sent may be
/// received never, once or often, in any order. Once memory has run out in a step the world is spent: its run stays, and it
/// answers the same from then on.
#[derive(Drop)]
pub struct World {
    network: Network,
}

impl Model for World {
    ghost use Rattle.std.specs.Coded.{codes};
    ghost use Rattle.gx_tree.specs.contracts.expr.Expr as expr_type;
    ghost use Rattle.gx_tree.specs.contracts.cond.Cond as cond_type;
    ghost use Rattle.gx_dsnap.specs.contracts.snapshot.Snapshot as snapshot_type;
    ghost use Rattle.gx_world.specs.Networks.{IsNetwork};
    ghost use Rattle.gx_world.specs.Worlds.{WorldState};

    ghost Value = { WorldState };

    ghost coded = { Prim.hlevel (codes, expr_type.the_row.coded, cond_type.the_row.coded, snapshot_type.the_row.coded) };

    ghost view = { λ w. record { script = w.network.script.value; run = w.network.run; spent = w.network.spent } };

    ghost invariant = { λ w. IsNetwork w.network };
}

impl World {
    /// A world in which nothing was done.
    pub fn new(alloc: Global, script: Script) -> Mem<World>
        requires { IsScript script }
        ensures { IfOk result (λ world. world ≡ record { script = script; run = record { steps = [] }; spent = false }) }
    {
        let network = Network::new(alloc, script)?;
        Ok(World { network })
    }

    /// The script that it was made with.
    pub fn script(&self) -> &Script
        ensures value { result.now ≡ self.now.script }
        ensures language { IsScript self.now.script }
    {
        &self.network.script
    }

    /// The run so far.
    pub fn run(&self) -> &Run
        ensures value { result.now ≡ self.now.run }
        ensures reached { IsReached self.now.script self.now.run.steps }
    {
        &self.network.run
    }

    /// How many messages were sent from one node to another. It is told while the world isn't spent.
    pub fn sent(&self, from: Node, to: Node) -> u64
        ensures { self.now.spent ≡ false → result ≡ sent_in from to self.now.run.steps }
    {
        sent(&self.network, from, to)
    }

    /// The message of a number, from 1, among those that were sent from one node to another; none where there is none. It is
    /// told while the world isn't spent.
    pub fn message(&self, from: Node, to: Node, number: u64) -> Option<&Message>
        ensures { self.now.spent ≡ false → option_copied result ≡ sent_message from to number self.now.run.steps }
    {
        message(&self.network, from, to, number)
    }

    /// Whether some session has a line without an answer, an open or failed block, or a line left. It is told while the world
    /// isn't spent.
    pub fn unfinished(&self) -> bool
        ensures none { self.now.spent ≡ false → result ≡ false → (id : Id) → id.0 < length self.now.script.sessions
            → is_unfinished_there self.now.script (coordinator_after self.now.script self.now.run.steps) id ≡ false }
        ensures some { self.now.spent ≡ false → result ≡ true → (id : Id) × (id.0 < length self.now.script.sessions)
            × (is_unfinished_there self.now.script (coordinator_after self.now.script self.now.run.steps) id ≡ true) }
    {
        !self.network.spent && is_unfinished(&self.network)
    }

    /// The least transaction whose wait at a node is ready: it is the one that resumes there. It is told while the world isn't spent.
    pub fn ready(&self, node: Node) -> Option<Gxid>
        ensures { self.now.spent ≡ false → option_to_list (option_map (Resume node) result) ≡ resumptions (marks_in self.now.run.steps) node }
    {
        if self.network.spent {
            return None;
        }
        ready(&self.network, node)
    }

    /// Whether some transaction waits at some node. It is told while the world isn't spent.
    pub fn any_wait(&self) -> bool
        ensures { self.now.spent ≡ false → result ≡ is_any_wait self.now.script (marks_in self.now.run.steps) }
    {
        !self.network.spent && any_wait(&self.network)
    }

    /// Whether an event may be done now. Once the world is spent none may.
    pub fn can(&self, event: &Event) -> bool
        ensures value { self.now.spent ≡ false → result ≡ is_admitted self.now.script self.now.run.steps event.now }
        ensures spent { self.now.spent ≡ true → result ≡ false }
    {
        !self.network.spent && can(&self.network, *event)
    }

    /// Does one event that may be done, at its node, with the journal of that node. After want of memory the run is as it was,
    /// and the world is spent; the journal of the event's node may then hold one item more than the run tells of: that of this
    /// event.
    pub fn step<J: Journal, G: Gate>(
        &mut self,
        event: Event,
        journals: &mut [J],
        gate: &G,
    ) -> Mem<()>
        requires admitted { self.old.spent ≡ false → is_admitted self.old.script self.old.run.steps event ≡ true }
        requires journals { length journals.old ≡ 17 }
        requires room { self.old.spent ≡ false → length self.old.run.steps < 2 ^ 40 }
        ensures done { OnOk result (HasStepped self.old.script self.old.run.steps self.new.run.steps event
            (map J.shelf journals.old) (map J.shelf journals.new)) }
        ensures legal { OnOk result (AreInsertsWhole self.old.script.tables self.old.script.lines → IsLegalHistory self.old.script self.new.run) }
        ensures protocol { OnOk result (DoStepsFollow self.old.script [] self.new.run.steps) }
        ensures tells { OnOk result (DoStepsTell [] self.new.run.steps) }
        ensures standing { OnOk result (DoRowsStand [] self.new.run.steps) }
        ensures locks { OnOk result (AreLocksLegal self.old.script self.new.run.steps) }
        ensures blocked { OnOk result (DoStayBlocked (marks_in self.new.run.steps)) }
        ensures rounds { OnOk result (AreRoundsLegal self.old.script self.new.run.steps) }
        ensures ordered { OnOk result (AreOrdered self.old.script [] self.new.run.steps) }
        ensures system { OnOk result (IsSystemRun self.old.script self.new.run) }
        ensures unspent { OnOk result (self.new.spent ≡ false) }
        ensures later { AreLater (node_of event) (map J.shelf journals.old) (map J.shelf journals.new) }
        ensures item { AreLaterBy (node_of event) (kept_for self.old.script (world_behind self.old.script self.old.run.steps) event) (map J.shelf journals.old) (map J.shelf journals.new) }
        ensures script { self.new.script ≡ self.old.script }
        ensures err { OnErr result (self.new ≡ record self.old { spent = true }) }
        ensures again { self.old.spent ≡ true → IsErr result × (journals.new ≡ journals.old) }
    {
        self.network.step(event, journals, gate)
    }

    /// The rows of each table in the order of the script, as a snapshot that is taken now shows them.
    pub fn final_tables(&self) -> Mem<Vec<Vec<KeyedRow>>>
        ensures all { IfOk result (λ tables. length tables.items ≡ length self.now.script.tables) }
        ensures rows { IfOk result (λ tables. AreFinalFrom 0 (marks_of self.now.run) tables.items) }
        ensures spent { self.now.spent ≡ true → IsErr result }
    {
        if self.network.spent {
            return Err(OutOfMemory);
        }
        tables(&self.network)
    }

    /// Who waits for whom at the end of the run: a graph for each node, from the coordinator on.
    pub fn graphs(&self) -> Mem<Vec<LocalGraph>>
        ensures value { IfOk result (λ graphs. graphs.items ≡ map (wait_graph (marks_in self.now.run.steps)) (the_coordinator ∷ segments_of self.now.script)) }
        ensures spent { self.now.spent ≡ true → IsErr result }
    {
        if self.network.spent {
            return Err(OutOfMemory);
        }
        graphs(&self.network)
    }

    /// The run, when nothing more is to be done, and the nodes that made it, as it has left them. Of the nodes of a spent world nothing is said.
    pub fn into_parts(self) -> (Run, Nodes)
        ensures value { result.0 ≡ self.run }
        ensures reached { IsReached self.script self.run.steps }
        ensures nodes { self.spent ≡ false → AreNodesBehind self.script self.run.steps result.1 }
    {
        let World { network } = self;
        network.into_parts()
    }
}
