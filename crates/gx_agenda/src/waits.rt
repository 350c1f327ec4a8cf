// The waits at each node, mark by mark.
ghost use Rattle.std.specs.Prelude.{◌≡◌, ◌∷◌, [], List, true, OnOk, IfOk, if◌then◌else◌, unwrap_or};
ghost use Rattle.std.specs.BTreeMap.{is_at};
ghost use Rattle.std.specs.List.{list_any};
ghost use Rattle.gx_ids.specs.declared.ids.Node.{Node as OneNode};
ghost use Rattle.gx_store.specs.Waits.{waits_from};
ghost use Rattle.gx_waits.specs.Claims.{with_claim, without_claim};
ghost use Rattle.gx_waits.specs.Claim.{same_claim};
ghost use Rattle.gx_waits.specs.declared.claim.Claim.{Claim as OneClaim};
ghost use Rattle.gx_agenda.specs.declared.request.Request.{Request as OneRequest};
ghost use Rattle.gx_agenda.specs.Awaited.{AreWaits, IsIndexed, awaited_at, begins_wait, due_of, waits_in};
ghost use Rattle.gx_agenda.specs.Requests.{request_cmp};
ghost use Rattle.gx_agenda.specs.VecMap.{at};

use crate::asked::Asked;
use crate::request::Request;
use gx_ids::{Gxid, Mem, Node, Seq};
use gx_locks::is_same_claim;
use gx_modes::Mode;
use gx_store::Mark;
use gx_waits::{Claim, Object};
use std::alloc::Global;

impl Asked {
    // Whether a mark changes nothing of who waits: where nobody does, each by which no wait begins.
    pub(crate) fn is_passed_over(&self, mark: &Mark) -> bool
        ensures { result ≡ true → (standing : OneNode → List OneClaim) → AreWaits standing self.now → AreWaits (λ node. waits_from node (standing node) (mark.now ∷ [])) self.now }
    {
        if self.waiting.is_empty() {
            !begins(mark)
        } else {
            false
        }
    }

    // A wait begins by its own mark, and ends by the hold or the release of the same lock.
    pub(crate) fn note_wait(&mut self, mark: &Mark) -> Mem<()>
        ensures awaited { OnOk result ((r : OneRequest) → awaited_at self.new r ≡ awaited_at self.old r) }
        ensures waits { OnOk result ((standing : OneNode → List OneClaim) → AreWaits standing self.old → AreWaits (λ node. waits_from node (standing node) (mark.now ∷ [])) self.new) }
        ensures due { OnOk result (IsIndexed self.old → IsIndexed self.new) }
    {
        match mark {
            Mark::Wait {
                node,
                gxid,
                object,
                mode,
            } => self.begin(*node, claim_of(gxid, object, mode)),
            Mark::Hold {
                node,
                gxid,
                object,
                mode,
            } => self.end(*node, gxid, object, mode),
            Mark::Release {
                node,
                gxid,
                object,
                mode,
            } => self.end(*node, gxid, object, mode),
            _ => Ok(()),
        }
    }

    fn begin(&mut self, node: Node, claim: Claim) -> Mem<()>
        ensures awaited { OnOk result ((r : OneRequest) → awaited_at self.new r ≡ awaited_at self.old r) }
        ensures waits { OnOk result ((r : OneRequest) → waits_in self.new.waiting r
            ≡ (if is_at (request_cmp (record { segment = node; gxid = claim.gxid })) r then with_claim claim (waits_in self.old.waiting r) else waits_in self.old.waiting r)) }
        ensures due { OnOk result (IsIndexed self.old → IsIndexed self.new) }
    {
        let request = Request {
            segment: node,
            gxid: claim.gxid,
        };
        let claims = with_claim(self.alloc, self.waiting.remove(&request), claim)?;
        self.put(request, claims)
    }

    fn end(&mut self, node: Node, gxid: &Gxid, object: &Object, mode: &Mode) -> Mem<()>
        ensures awaited { OnOk result ((r : OneRequest) → awaited_at self.new r ≡ awaited_at self.old r) }
        ensures waits { OnOk result ((r : OneRequest) → waits_in self.new.waiting r
            ≡ (if is_at (request_cmp (record { segment = node; gxid = gxid.now })) r then without_claim (record { gxid = gxid.now; object = object.now; mode = mode.now }) (waits_in self.old.waiting r)
            else waits_in self.old.waiting r)) }
        ensures due { OnOk result (IsIndexed self.old → IsIndexed self.new) }
    {
        if self.waiting.is_empty() {
            Ok(())
        } else {
            self.strike(node, claim_of(gxid, object, mode))
        }
    }

    fn strike(&mut self, node: Node, claim: Claim) -> Mem<()>
        ensures awaited { OnOk result ((r : OneRequest) → awaited_at self.new r ≡ awaited_at self.old r) }
        ensures waits { OnOk result ((r : OneRequest) → waits_in self.new.waiting r
            ≡ (if is_at (request_cmp (record { segment = node; gxid = claim.gxid })) r then without_claim claim (waits_in self.old.waiting r) else waits_in self.old.waiting r)) }
        ensures due { OnOk result (IsIndexed self.old → IsIndexed self.new) }
    {
        let request = Request {
            segment: node,
            gxid: claim.gxid,
        };
        match self.waiting.remove(&request) {
            Some(claims) => self.put(request, without_claim(claims, &claim)),
            None => Ok(()),
        }
    }

    // These are the waits of a request whose waits were taken out.
    fn put(&mut self, request: Request, claims: Seq<Claim>) -> Mem<()>
        ensures awaited { OnOk result ((r : OneRequest) → awaited_at self.new r ≡ awaited_at self.old r) }
        ensures waits { OnOk result ((r : OneRequest) → waits_in self.new.waiting r ≡ (if is_at (request_cmp request) r then claims else waits_in self.old.waiting r)) }
        ensures due { OnOk result ((r : OneRequest) → at request_cmp self.new.due r
            ≡ (if is_at (request_cmp request) r then due_of (awaited_at self.old request) claims else at request_cmp self.old.due r)) }
    {
        self.fill(request, claims)?;
        self.settle(request)
    }

    fn fill(&mut self, request: Request, claims: Seq<Claim>) -> Mem<()>
        ensures due { self.new.due ≡ self.old.due }
        ensures withheld { self.new.withheld ≡ self.old.withheld }
        ensures waits { OnOk result ((r : OneRequest) → waits_in self.new.waiting r ≡ (if is_at (request_cmp request) r then claims else waits_in self.old.waiting r)) }
    {
        if claims.is_empty() {
            self.waiting.remove(&request);
        } else {
            self.waiting.insert(request, claims)?;
        }
        Ok(())
    }
}

fn begins(mark: &Mark) -> bool
    ensures { result ≡ begins_wait mark.now }
{
    matches!(mark, Mark::Wait { .. })
}

fn claim_of(gxid: &Gxid, object: &Object, mode: &Mode) -> Claim
    ensures { result ≡ record { gxid = gxid.now; object = object.now; mode = mode.now } }
{
    Claim {
        gxid: *gxid,
        object: *object,
        mode: *mode,
    }
}

// Claims with one more, unless it is among them.
fn with_claim(alloc: Global, claims: Option<Seq<Claim>>, claim: Claim) -> Mem<Seq<Claim>>
    ensures { IfOk result (λ more. more ≡ with_claim claim (unwrap_or claims [])) }
{
    let mut claims = claims.unwrap_or(Seq::new(alloc));
    if !is_among(claims.as_slice(), &claim) {
        claims.push(claim)?;
    }
    Ok(claims)
}

fn without_claim(claims: Seq<Claim>, claim: &Claim) -> Seq<Claim>
    ensures { result ≡ without_claim claim.now claims }
{
    let mut left = claims.into_vec();
    left.retain(|other| !is_same_claim(claim, other));
    Seq::from_vec(left)
}

fn is_among(claims: &[Claim], claim: &Claim) -> bool
    ensures { result ≡ list_any (same_claim claim.now) claims.now }
{
    claims.iter().any(|other| is_same_claim(claim, other))
}
