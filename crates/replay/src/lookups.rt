// Lines looked up by their request or group. A search that takes fields out of an event is a loop: `find_map` would hold the same match.
ghost use Rattle.std.specs.Prelude.{◌≡◌, ◌==◌, position};
ghost use Rattle.model.specs.Replay.{response_of};
ghost use Rattle.replay.specs.Promises.{replied_as, arrival_of};

use text::{Event, Of};

// A request as it arrives.
#[derive(Clone, Copy, Debug, PartialEq, Eq)]
pub(crate) struct Arrival {
    pub prog: u64,
    pub a: u64,
    pub b: u64,
}

// What a request was answered with.
#[derive(Clone, Copy, Debug, PartialEq, Eq)]
pub(crate) struct Response {
    pub status: u64,
    pub value: u64,
}

// What the trace has for a request: its response, or nothing of one that was left open.
pub(crate) type Reply = Option<Response>;

// The `request` line of a rid.
pub(crate) fn arrival_of(events: &[Event], rid: u64) -> Option<Arrival>
    ensures { result ≡ arrival_of events.now rid }
{
    for event in events {
        match *event {
            Event::Request { rid: q, prog, a, b } if q == rid => {
                return Some(Arrival { prog, a, b });
            }
            _ => {}
        }
    }
    None
}

// The `response` line of a rid.
pub(crate) fn response_of(events: &[Event], rid: u64) -> Reply
    ensures { replied_as result ≡ response_of events.now rid }
{
    for event in events {
        match *event {
            Event::Response {
                rid: q,
                status,
                value,
            } if q == rid => return Some(Response { status, value }),
            _ => {}
        }
    }
    None
}

// The first `of` line of a group.
pub(crate) fn first_of_group(ofs: &[Of], group: u64) -> Option<usize>
    ensures { result ≡ position (λ x. x.group == group) ofs.now }
{
    ofs.iter().position(|x| x.group == group)
}
