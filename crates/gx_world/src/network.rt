ghost use Rattle.std.specs.Prelude.{◌≡◌, ◌<◌, ◌^◌, [], true, false, IfOk, IsErr, OnOk, OnErr, length, map};
ghost use Rattle.gx_law_runs.specs.Replays.{is_admitted, world_behind};
ghost use Rattle.gx_rules.specs.Machine.{node_of};
ghost use Rattle.gx_store.specs.Language.{IsScript};
ghost use Rattle.gx_world.specs.Networks.{HasDone, IsNetwork};
ghost use Rattle.gx_world.specs.Worlds.{AreLaterBy, kept_for};

use crate::Letters;
use crate::making::new_segments;
use crate::moves::do_event;
use gx_coord::Coord;
use gx_ids::{Mem, OutOfMemory};
use gx_outside::{Gate, Journal};
use gx_script::Script;
use gx_segment::Segment;
use gx_store::{Event, Run};
use std::alloc::Global;
use std::sync::Arc;

/// The nodes of a script, the places of all messages, and the run so far. Once memory has run out in a step it is spent.
#[derive(Drop)]
pub struct Network {
    pub(crate) alloc: Global,
    pub script: Arc<Script, Global>,
    pub coord: Coord,
    pub segments: Vec<Segment>,
    pub letters: Letters,
    pub run: Run,
    pub spent: bool,
}

/// The nodes of a network with which nothing more is to be done, and the places of all messages.
#[derive(Drop)]
pub struct Nodes {
    pub script: Arc<Script, Global>,
    pub coord: Coord,
    pub segments: Vec<Segment>,
    pub letters: Letters,
}

impl Network {
    /// A network in which nothing was done.
    pub fn new(alloc: Global, script: Script) -> Mem<Network>
        requires { IsScript script }
        ensures is { IfOk result (λ network. IsNetwork network) }
        ensures script { IfOk result (λ network. network.script.value ≡ script) }
        ensures run { IfOk result (λ network. network.run ≡ record { steps = [] }) }
        ensures unspent { IfOk result (λ network. network.spent ≡ false) }
    {
        let count = script.segments;
        let script = Arc::new(alloc, script)?;
        let coord = Coord::new(alloc, script.clone()?)?;
        let segments = new_segments(alloc, &script, count)?;
        let letters = Letters::new(alloc, count)?;
        Ok(Network {
            alloc,
            script,
            coord,
            segments,
            letters,
            run: Run::new(alloc),
            spent: false,
        })
    }

    /// Does one event that is admitted, at its node, with the journal of that node.
    pub fn step<J: Journal, G: Gate>(
        &mut self,
        event: Event,
        journals: &mut [J],
        gate: &G,
    ) -> Mem<()>
        requires is { IsNetwork self.old }
        requires admitted { self.old.spent ≡ false → is_admitted self.old.script.value self.old.run.steps event ≡ true }
        requires journals { length journals.old ≡ 17 }
        requires room { self.old.spent ≡ false → length self.old.run.steps < 2 ^ 40 }
        ensures is { IsNetwork self.new }
        ensures done { OnOk result (HasDone self.old self.new event (map J.shelf journals.old) (map J.shelf journals.new)) }
        ensures later { AreLaterBy (node_of event) (kept_for self.old.script.value (world_behind self.old.script.value self.old.run.steps) event) (map J.shelf journals.old) (map J.shelf journals.new) }
        ensures script { self.new.script ≡ self.old.script }
        ensures run { OnErr result (self.new.run ≡ self.old.run) }
        ensures spent { OnErr result (self.new.spent ≡ true) }
        ensures again { self.old.spent ≡ true → IsErr result × (journals.new ≡ journals.old) }
    {
        if self.spent {
            return Err(OutOfMemory);
        }
        let done = do_event(self, event, journals, gate);
        match done {
            Ok(()) => {}
            Err(_) => self.spent = true,
        }
        done
    }

    /// The run, and the nodes.
    pub fn into_parts(self) -> (Run, Nodes)
        ensures run { result.0 ≡ self.run }
        ensures nodes { result.1 ≡ record { script = self.script; coord = self.coord; segments = self.segments; letters = self.letters } }
    {
        let Network {
            alloc: _,
            script,
            coord,
            segments,
            letters,
            run,
            spent: _,
        } = self;
        let nodes = Nodes {
            script,
            coord,
            segments,
            letters,
        };
        (run, nodes)
    }
}
