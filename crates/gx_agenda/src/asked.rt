ghost use Rattle.std.specs.Prelude.{◌≡◌, ◌++◌, [], ℕ, List, Option, Some, None, false, if◌then◌else◌, ◌&&◌, OnOk, IfSome, IfNone, IsSome, map, option_map, ◌<◌, ◌==◌, not, length};
ghost use Rattle.std.specs.Option.{option_copied, option_to_list};
ghost use Rattle.std.specs.BTreeMap.{is_at};
ghost use Rattle.std.specs.List.{filter, flat_map};
ghost use Rattle.gx_ids.specs.declared.ids.Gxid.{Gxid};
ghost use Rattle.gx_ids.specs.declared.ids.Node.{Node};
ghost use Rattle.gx_msg.specs.declared.message.Message.{Message};
ghost use Rattle.gx_script.specs.declared.Script.{Script};
ghost use Rattle.gx_store.specs.declared.run.Step.{Step};
ghost use Rattle.gx_store.specs.Journals.{is_same_node};
ghost use Rattle.gx_store.specs.Marks.{is_same_gxid};
ghost use Rattle.gx_store.specs.Points.{marks_in};
ghost use Rattle.gx_store.specs.Schedule.{asked_by, first_of, is_about, is_graph_awaited, resends, resumptions, segments_of, unless_answered};
ghost use Rattle.gx_agenda.specs.declared.request.Request.{Request as OneRequest};
ghost use Rattle.gx_agenda.specs.Awaited.{AreAsked, AreResendable, IsFirstGraph, IsIndexed, IsResendable, awaited_at, due_of, expected_at, told_in, waits_in};
ghost use Rattle.gx_agenda.specs.Expected.{expected_of, unless_met};
ghost use Rattle.gx_agenda.specs.Following.{FollowsOrders, IsOrderOf, unless_told};
ghost use Rattle.gx_agenda.specs.Requests.{request_cmp};
ghost use Rattle.gx_agenda.specs.VecMap.{IsLeast, IsRising, StandsAt, at};

use crate::expected::{Expected, expected_answer, is_met_by, transaction_of};
use crate::repeating::is_asked_anew;
use crate::request::Request;
use crate::resends::{earlier, first_key, push_graph, push_requests, resend};
use crate::vec_map::VecMap;
use gx_ids::{Gxid, Mem, Node, Seq};
use gx_msg::{Message, Reply};
use gx_store::{Event, StepView};
use gx_waits::Claim;
use std::alloc::Global;
use std::collections::BTreeMap;

/// The answers that are awaited, and the waits that stand at each node.
#[derive(Drop)]
pub struct Asked {
    /// The answers that may be asked for again.
    pub due: VecMap<Request, Expected>,
    /// The others: those to commands whose transactions wait where they were sent.
    pub withheld: VecMap<Request, Expected>,
    pub waiting: BTreeMap<Request, Seq<Claim>>,
    pub alloc: Global,
}

impl Asked {
    /// Nothing was asked yet.
    pub fn new(alloc: Global) -> Asked
        ensures { AreAsked [] result }
    {
        Asked {
            due: VecMap::new(alloc),
            withheld: VecMap::new(alloc),
            waiting: BTreeMap::new(alloc),
            alloc,
        }
    }

    /// What is sent again first, by segment: there by transaction, and the graph last. Told is the first segment whose graph is
    /// awaited, if there is one.
    pub fn first(&self, graph: Option<Node>) -> Option<Event>
        ensures { (script : Script) (steps : List Step) → AreAsked steps self.now → AreResendable script steps → IsFirstGraph script steps graph
            → option_to_list result ≡ first_of (flat_map (resends script steps) (segments_of script)) }
    {
        let asked = first_key(&self.due);
        match graph {
            Some(segment) => earlier(segment, asked),
            None => resend(asked),
        }
    }

    /// Adds all that is sent again to a segment on whose links nothing is left: by transaction, and the graph last, of which it is
    /// told whether it is awaited.
    pub fn push_resends(&self, events: &mut Vec<Event>, segment: Node, graph: bool) -> Mem<()>
        ensures { OnOk result ((script : Script) (steps : List Step) → AreAsked steps self.now → IsResendable script steps segment
            → graph ≡ is_graph_awaited steps segment → events.new.items ≡ events.old.items ++ resends script steps segment) }
    {
        push_requests(&self.due, segment, events)?;
        push_graph(segment, graph, events)
    }

    /// Whether somebody waits. Where nobody does, nobody resumes.
    pub fn is_any_waiting(&self) -> bool
        ensures { result ≡ false → (steps : List Step) → AreAsked steps self.now → (node : Node) → resumptions (marks_in steps) node ≡ [] }
    {
        !self.waiting.is_empty()
    }

    // The coordinator hears what its step received. What the step asks anew is awaited whatever it hears.
    pub(crate) fn hear(&mut self, step: &StepView<'_>, told: Option<&Message>)
        ensures asked { (steps : List Step) → option_copied told.entry ≡ told_in steps step.now.event → (segment : Node) (g : Gxid) (was : Option Message) → IsOrderOf g was
            → expected_at self.old segment g ≡ option_map expected_of was → (left : Option Message) × (expected_at self.new segment g ≡ option_map expected_of left)
            × (asked_by segment g left step.now.marks ≡ asked_by segment g (unless_answered steps segment g was step.now.event) step.now.marks) }
        ensures waiting { self.new.waiting ≡ self.old.waiting }
        ensures due { IsIndexed self.old → IsIndexed self.new }
    {
        let event = step.event();
        if !is_asked_anew(event, told, step.marks()) {
            self.received(event, told);
        }
    }

    // The coordinator has received a message, if its event is a receipt.
    fn received(&mut self, event: Event, told: Option<&Message>)
        ensures asked { (steps : List Step) → option_copied told.entry ≡ told_in steps event → FollowsOrders (λ segment g was. unless_answered steps segment g was event) self.old self.new }
        ensures waiting { self.new.waiting ≡ self.old.waiting }
        ensures due { IsIndexed self.old → IsIndexed self.new }
    {
        if let Event::Receive { from, .. } = event {
            if let Some(told) = told {
                self.heard(from, told);
            }
        }
    }

    // A node has told the coordinator a message.
    fn heard(&mut self, from: Node, told: &Message)
        ensures asked { FollowsOrders (λ segment g was. unless_told from told.now segment g was) self.old self.new }
        ensures waiting { self.new.waiting ≡ self.old.waiting }
        ensures due { IsIndexed self.old → IsIndexed self.new }
    {
        if let Message::Answer(gxid, reply) = told {
            self.answered(from, *gxid, reply);
        }
    }

    // A node has answered for a transaction. Mostly what it answers is due, and then it is looked for once.
    fn answered(&mut self, segment: Node, gxid: Gxid, reply: &Reply)
        ensures asked { (s : Node) (g : Gxid) → expected_at self.new s g ≡ unless_met (is_same_node segment s && is_same_gxid gxid g) reply.now (expected_at self.old s g) }
        ensures waiting { self.new.waiting ≡ self.old.waiting }
        ensures due { IsIndexed self.old → IsIndexed self.new }
    {
        let request = Request { segment, gxid };
        match self.due.find(request) {
            Some((place, expected)) => {
                if is_met_by(expected, reply) {
                    self.withdraw_at(place, request);
                }
            }
            None => self.meet(segment, gxid, reply),
        }
    }

    // What is awaited of a request may be met.
    fn meet(&mut self, segment: Node, gxid: Gxid, reply: &Reply)
        ensures asked { (s : Node) (g : Gxid) → expected_at self.new s g ≡ unless_met (is_same_node segment s && is_same_gxid gxid g) reply.now (expected_at self.old s g) }
        ensures waiting { self.new.waiting ≡ self.old.waiting }
        ensures due { IsIndexed self.old → IsIndexed self.new }
    {
        let request = Request { segment, gxid };
        if let Some(expected) = self.awaited(&request) {
            if is_met_by(expected, reply) {
                self.withdraw(&request);
            }
        }
    }

    // The coordinator has sent a message.
    pub(crate) fn sent(&mut self, to: Node, message: &Message) -> Mem<()>
        ensures asked { OnOk result ((s : Node) (g : Gxid) → expected_at self.new s g
            ≡ (if is_same_node to s && is_about g message.now then Some (expected_of message.now) else expected_at self.old s g)) }
        ensures waiting { self.new.waiting ≡ self.old.waiting }
        ensures due { OnOk result (IsIndexed self.old → IsIndexed self.new) }
    {
        if let Some(gxid) = transaction_of(message) {
            let request = Request { segment: to, gxid };
            self.expect(request, expected_answer(message))?;
        }
        Ok(())
    }

    // What is awaited of a request, if anything.
    fn awaited(&self, request: &Request) -> Option<Expected>
        ensures { result ≡ awaited_at self.now request.now }
    {
        match self.due.get(*request) {
            Some(expected) => Some(expected),
            None => self.withheld.get(*request),
        }
    }

    // An answer is awaited no more.
    fn withdraw(&mut self, request: &Request)
        ensures awaited { (r : OneRequest) → awaited_at self.new r ≡ (if is_at (request_cmp request.now) r then None else awaited_at self.old r) }
        ensures waiting { self.new.waiting ≡ self.old.waiting }
        ensures due { IsIndexed self.old → IsIndexed self.new }
    {
        self.due.remove(*request);
        self.withheld.remove(*request);
    }

    // The same of an answer that is due, and stands at this place.
    fn withdraw_at(&mut self, place: usize, request: Request)
        requires { StandsAt (request_cmp request) self.old.due place }
        ensures awaited { (r : OneRequest) → awaited_at self.new r ≡ (if is_at (request_cmp request) r then None else awaited_at self.old r) }
        ensures waiting { self.new.waiting ≡ self.old.waiting }
        ensures due { IsIndexed self.old → IsIndexed self.new }
    {
        self.due.remove_at(place);
        self.withheld.remove(request);
    }

    // An answer is awaited. Whether it may be asked for again is told by its kind and by the waits.
    fn expect(&mut self, request: Request, expected: Expected) -> Mem<()>
        ensures awaited { OnOk result ((r : OneRequest) → awaited_at self.new r ≡ (if is_at (request_cmp request) r then Some expected else awaited_at self.old r)) }
        ensures waiting { self.new.waiting ≡ self.old.waiting }
        ensures due { OnOk result ((r : OneRequest) → at request_cmp self.new.due r
            ≡ (if is_at (request_cmp request) r then due_of (Some expected) (waits_in self.old.waiting request) else at request_cmp self.old.due r)) }
    {
        if expected.is_command() && self.is_waiting(&request) {
            self.withhold(request, expected)
        } else {
            self.offer(request, expected)
        }
    }

    // What is awaited of a request goes where its waits, which have changed, say.
    pub(crate) fn settle(&mut self, request: Request) -> Mem<()>
        ensures awaited { OnOk result ((r : OneRequest) → awaited_at self.new r ≡ awaited_at self.old r) }
        ensures waiting { self.new.waiting ≡ self.old.waiting }
        ensures due { OnOk result ((r : OneRequest) → at request_cmp self.new.due r
            ≡ (if is_at (request_cmp request) r then due_of (awaited_at self.old request) (waits_in self.old.waiting request) else at request_cmp self.old.due r)) }
    {
        match self.awaited(&request) {
            Some(expected) => self.expect(request, expected),
            None => Ok(()),
        }
    }

    fn withhold(&mut self, request: Request, expected: Expected) -> Mem<()>
        ensures awaited { OnOk result ((r : OneRequest) → awaited_at self.new r ≡ (if is_at (request_cmp request) r then Some expected else awaited_at self.old r)) }
        ensures waiting { self.new.waiting ≡ self.old.waiting }
        ensures due { (r : OneRequest) → at request_cmp self.new.due r ≡ (if is_at (request_cmp request) r then None else at request_cmp self.old.due r) }
    {
        self.due.remove(request);
        self.withheld.insert(request, expected)?;
        Ok(())
    }

    fn offer(&mut self, request: Request, expected: Expected) -> Mem<()>
        ensures awaited { OnOk result ((r : OneRequest) → awaited_at self.new r ≡ (if is_at (request_cmp request) r then Some expected else awaited_at self.old r)) }
        ensures waiting { self.new.waiting ≡ self.old.waiting }
        ensures due { OnOk result ((r : OneRequest) → at request_cmp self.new.due r ≡ (if is_at (request_cmp request) r then Some expected else at request_cmp self.old.due r)) }
    {
        self.withheld.remove(request);
        self.due.insert(request, expected)?;
        Ok(())
    }

    // Whether the transaction of a request waits at its node.
    fn is_waiting(&self, request: &Request) -> bool
        ensures { result ≡ not (length (waits_in self.now.waiting request.now) == 0) }
    {
        match self.waiting.get(request) {
            Some(claims) => claims.len() > 0,
            None => false,
        }
    }
}
