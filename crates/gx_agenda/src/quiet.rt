ghost use Rattle.std.specs.Prelude.{◌≡◌, ◌<◌, ◌≤◌, List};
ghost use Rattle.gx_script.specs.declared.Script.{Script};
ghost use Rattle.gx_store.specs.declared.run.Step.{Step as OneStep};
ghost use Rattle.gx_agenda.specs.Quiet.{AreQuiet};

use gx_ids::Node;

/// Where to begin to look for a delivery: nothing is left on the links from the first so many segments, nor on those to the first
/// so many.
#[derive(Clone, Copy)]
pub struct Quiet {
    pub from: u8,
    pub to: u8,
}

impl Quiet {
    /// Nothing is known.
    pub fn new() -> Quiet
        ensures { (script : Script) (steps : List OneStep) → AreQuiet script steps result }
    {
        Quiet { from: 0, to: 0 }
    }

    // A segment may have sent something.
    pub(crate) fn sent_by(&mut self, segment: Node)
        ensures to { self.new.to ≡ self.old.to }
        ensures most { self.new.from ≤ self.old.from }
        ensures before { 0 < segment.0 → self.new.from < segment.0 }
    {
        self.from = below(segment, self.from);
    }

    // Something was sent to a segment.
    pub(crate) fn sent_to(&mut self, segment: Node)
        ensures from { self.new.from ≡ self.old.from }
        ensures most { self.new.to ≤ self.old.to }
        ensures before { 0 < segment.0 → self.new.to < segment.0 }
    {
        self.to = below(segment, self.to);
    }
}

// How many of the first so many segments stand before a node.
fn below(node: Node, segments: u8) -> u8
    ensures most { result ≤ segments }
    ensures before { 0 < node.0 → result < node.0 }
{
    segments.min(node.0.saturating_sub(1))
}
