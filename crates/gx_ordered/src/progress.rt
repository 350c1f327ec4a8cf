// How far the nodes and their links have come.
ghost use Rattle.std.specs.Prelude.{◌≡◌, ◌<◌, ◌+◌, ◌++◌, ◌∷◌, ◌↔◌, ◌^◌, ℕ, nat_eq, false, Some, List, length, replicate, slice_get, slice_set, [], All, IfOk, OnOk, IsTrue, if◌then◌else◌};
ghost use Rattle.gx_ids.specs.declared.ids.Node.{Node as OneNode};
ghost use Rattle.gx_store.specs.declared.run.Step.{Step as OneStep};
ghost use Rattle.gx_store.specs.Journals.{is_same_node};
ghost use Rattle.gx_store.specs.Ordered.{AreNumbered, sent_in};
ghost use Rattle.gx_ordered.specs.Links.{HasNext, IsLong, IsOnLink, IsSentOnLink, clocks_in, link_in, nth_link};

use gx_ids::{Mem, Node, Seq, Stamp};
use gx_store::Mark;
use std::alloc::Global;

/// The clock of each node's last step, by its number, and of each link the clocks of the steps in which its messages were sent, in the
/// order of their numbers: of those to each segment, and of those from each.
#[derive(Drop)]
pub struct Progress {
    pub clocks: Vec<u64>,
    pub to: Vec<Seq<u64>>,
    pub from: Vec<Seq<u64>>,
}

/// As many as nodes can be named.
const NODES: usize = 256;

fn no_clocks(alloc: Global) -> Mem<Vec<u64>>
    ensures { IfOk result (λ clocks. clocks.items ≡ replicate 256 0) }
{
    let mut clocks = Vec::new(alloc);
    for _node in 0..NODES {
        clocks.push(0)?;
    }
    Ok(clocks)
}

fn no_sendings(alloc: Global) -> Mem<Vec<Seq<u64>>>
    ensures { IfOk result (λ links. links.items ≡ replicate 256 []) }
{
    let mut links = Vec::new(alloc);
    for _node in 0..NODES {
        links.push(Seq::new(alloc))?;
    }
    Ok(links)
}

fn sendings_at(links: &[Seq<u64>], at: Node) -> &[u64]
    ensures { result.now ≡ nth_link links.now at.0 }
{
    match links.get(usize::from(at.0)) {
        Some(sendings) => sendings.as_slice(),
        None => &[],
    }
}

// One more message of a link.
fn add(links: &mut Vec<Seq<u64>>, at: Node, clock: u64) -> Mem<()>
    requires { at.0 < length links.old.items }
    ensures long { OnOk result (length links.new.items ≡ length links.old.items) }
    ensures here { OnOk result (nth_link links.new.items at.0 ≡ nth_link links.old.items at.0 ++ clock ∷ []) }
    ensures others { OnOk result ((k : ℕ) → nat_eq k at.0 ≡ false → nth_link links.new.items k ≡ nth_link links.old.items k) }
{
    links[usize::from(at.0)].push(clock)
}

impl Progress {
    /// Nothing was done.
    pub fn new(alloc: Global) -> Mem<Progress>
        ensures clocks { IfOk result (λ progress. progress.clocks.items ≡ replicate 256 0) }
        ensures to { IfOk result (λ progress. progress.to.items ≡ replicate 256 []) }
        ensures from { IfOk result (λ progress. progress.from.items ≡ replicate 256 []) }
    {
        Ok(Progress {
            clocks: no_clocks(alloc)?,
            to: no_sendings(alloc)?,
            from: no_sendings(alloc)?,
        })
    }

    /// The clocks of the steps in which the messages of a link were sent.
    pub fn link(&self, from: Node, to: Node) -> &[u64]
        ensures { result.now ≡ link_in self.now from to }
    {
        if from.0 == 0 {
            sendings_at(self.to.as_slice(), to)
        } else if to.0 == 0 {
            sendings_at(self.from.as_slice(), from)
        } else {
            &[]
        }
    }
}

// Notes that a node sends a message, on one of its links.
fn send(progress: &mut Progress, stamp: Stamp, to: Node) -> Mem<()>
    requires long { IsLong progress.old }
    requires there { IsOnLink stamp.node to }
    ensures long { OnOk result (IsLong progress.new) }
    ensures clocks { OnOk result (progress.new.clocks ≡ progress.old.clocks) }
    ensures links { OnOk result ((f t : OneNode) → link_in progress.new f t ≡ link_in progress.old f t ++ (if is_same_node f stamp.node then (if is_same_node to t then stamp.clock ∷ [] else []) else [])) }
{
    if stamp.node.0 == 0 {
        add(&mut progress.to, to, stamp.clock)
    } else {
        add(&mut progress.from, stamp.node, stamp.clock)
    }
}

// Notes the message, where it has the next number of its link; whether it has.
fn send_next(progress: &mut Progress, stamp: Stamp, to: Node, number: u64) -> Mem<bool>
    requires long { IsLong progress.old }
    requires there { IsOnLink stamp.node to }
    ensures next { IfOk result (λ next. IsTrue next ↔ (number ≡ length (link_in progress.old stamp.node to) + 1)) }
    ensures long { OnOk result (IsLong progress.new) }
    ensures clocks { OnOk result (progress.new.clocks ≡ progress.old.clocks) }
    ensures links { IfOk result (λ next. IsTrue next → (f t : OneNode) → link_in progress.new f t ≡ link_in progress.old f t ++ (if is_same_node f stamp.node then (if is_same_node to t then stamp.clock ∷ [] else []) else [])) }
{
    if number != progress.link(stamp.node, to).len() as u64 + 1 {
        return Ok(false);
    }
    send(progress, stamp, to)?;
    Ok(true)
}

// Notes what the mark sends; whether it has the next number of its link.
fn note_mark(progress: &mut Progress, stamp: Stamp, mark: &Mark) -> Mem<bool>
    requires long { IsLong progress.old }
    requires there { IsSentOnLink stamp.node mark.now }
    ensures next { IfOk result (λ next. IsTrue next ↔ HasNext (λ to. length (link_in progress.old stamp.node to)) mark.now) }
    ensures long { OnOk result (IsLong progress.new) }
    ensures clocks { OnOk result (progress.new.clocks ≡ progress.old.clocks) }
    ensures links { IfOk result (λ next. IsTrue next → (f t : OneNode) → link_in progress.new f t ≡ link_in progress.old f t ++ (if is_same_node f stamp.node then clocks_in stamp.clock t (mark.now ∷ []) else [])) }
{
    match mark {
        Mark::Sent { to, number, .. } => send_next(progress, stamp, *to, *number),
        _ => Ok(true),
    }
}

/// Notes what the marks of a step send; whether each message has the next number of its link.
pub fn note_marks(progress: &mut Progress, stamp: Stamp, marks: &[Mark]) -> Mem<bool>
    ghost steps: { List OneStep }
    requires long { IsLong progress.old }
    requires there { All (IsSentOnLink stamp.node) marks.now }
    requires counts { (to : OneNode) → length (link_in progress.old stamp.node to) ≡ sent_in stamp.node to steps }
    ensures numbers { IfOk result (λ are. IsTrue are ↔ AreNumbered stamp.node steps [] marks.now) }
    ensures long { OnOk result (IsLong progress.new) }
    ensures clocks { OnOk result (progress.new.clocks ≡ progress.old.clocks) }
    ensures links { IfOk result (λ are. IsTrue are → (f t : OneNode) → link_in progress.new f t ≡ link_in progress.old f t ++ (if is_same_node f stamp.node then clocks_in stamp.clock t marks.now else [])) }
{
    for number in 0..marks.len() {
        if !note_mark(progress, stamp, &marks[number])? {
            return Ok(false);
        }
    }
    Ok(true)
}

/// Notes the clock of the step.
pub fn note_clock(progress: &mut Progress, stamp: Stamp)
    requires { IsLong progress.old }
    ensures few { stamp.node.0 < 256 }
    ensures others { progress.new ≡ record progress.old { clocks = progress.new.clocks } }
    ensures clocks { progress.new.clocks.items ≡ slice_set progress.old.clocks.items stamp.node.0 stamp.clock }
{
    progress.clocks[usize::from(stamp.node.0)] = stamp.clock;
}
