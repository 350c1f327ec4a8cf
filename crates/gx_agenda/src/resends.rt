// What is sent again.
ghost use Rattle.std.specs.Prelude.{◌≡◌, ◌<◌, ◌++◌, ◌∷◌, [], None, if◌then◌else◌, OnOk, IfSome, IfNone, IsSome, map, option_map};
ghost use Rattle.std.specs.Option.{option_to_list};
ghost use Rattle.std.specs.List.{filter};
ghost use Rattle.gx_store.specs.declared.event.Event.TheVariants.{Resend};
ghost use Rattle.gx_agenda.specs.declared.expected.Expected.{Expected as OneExpected};
ghost use Rattle.gx_agenda.specs.declared.request.Request.{Request as OneRequest};
ghost use Rattle.gx_agenda.specs.Requests.{is_before, is_of, request_cmp, resend_of};
ghost use Rattle.gx_agenda.specs.VecMap.{IsLeast, IsRising, at};

use crate::expected::Expected;
use crate::request::Request;
use crate::vec_map::VecMap;
use gx_ids::{Mem, Node};
use gx_store::Event;

// The segment's graph, if the segment stands before what is asked, or else that.
pub(crate) fn earlier(segment: Node, asked: Option<Request>) -> Option<Event>
    ensures { option_to_list result ≡ (if is_before segment asked then Resend segment None ∷ [] else option_to_list (option_map resend_of asked)) }
{
    if is_before(segment, asked) {
        Some(Event::Resend {
            segment,
            gxid: None,
        })
    } else {
        resend(asked)
    }
}

fn is_before(segment: Node, asked: Option<Request>) -> bool
    ensures { result ≡ is_before segment asked }
{
    match asked {
        Some(request) => segment.0 < request.segment.0,
        None => true,
    }
}

// What is asked is sent again.
pub(crate) fn resend(asked: Option<Request>) -> Option<Event>
    ensures { result ≡ option_map resend_of asked }
{
    let request = asked?;
    Some(Event::Resend {
        segment: request.segment,
        gxid: Some(request.gxid),
    })
}

// The least request.
pub(crate) fn first_key(pending: &VecMap<Request, Expected>) -> Option<Request>
    ensures found { IfSome result (λ first. IsSome (at request_cmp pending.now first)) }
    ensures least { IfSome result (λ first. IsLeast request_cmp pending.now first) }
    ensures none { IfNone result (pending.now ≡ []) }
{
    let (request, _) = pending.first()?;
    Some(request)
}

// Adds the resends of a segment's requests.
pub(crate) fn push_requests(
    pending: &VecMap<Request, Expected>,
    segment: Node,
    events: &mut Vec<Event>,
) -> Mem<()>
    ensures all { OnOk result (events.new.items ≡ events.old.items
        ++ map (λ (e : OneRequest × OneExpected). resend_of e.0) (filter (λ (e : OneRequest × OneExpected). is_of segment e.0) pending.now)) }
    ensures ordered { IsRising request_cmp pending.now }
{
    for (request, _) in pending.entries() {
        push_request(*request, segment, events)?;
    }
    Ok(())
}

// The resend of a request, if it is the segment's.
fn push_request(request: Request, segment: Node, events: &mut Vec<Event>) -> Mem<()>
    ensures { OnOk result (events.new.items ≡ events.old.items ++ (if is_of segment request then resend_of request ∷ [] else [])) }
{
    if request.segment == segment {
        events.push(Event::Resend {
            segment: request.segment,
            gxid: Some(request.gxid),
        })?;
    }
    Ok(())
}

// The graph of a segment, if it is awaited.
pub(crate) fn push_graph(segment: Node, graph: bool, events: &mut Vec<Event>) -> Mem<()>
    ensures { OnOk result (events.new.items ≡ events.old.items ++ (if graph then Resend segment None ∷ [] else [])) }
{
    if graph {
        events.push(Event::Resend {
            segment,
            gxid: None,
        })?;
    }
    Ok(())
}
