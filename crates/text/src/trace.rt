// The trace: `request` and `response` lines in time order.
ghost use Rattle.std.specs.Prelude.{◌≡◌};
ghost use Rattle.lines.specs.Place.{line_at};
ghost use Rattle.text.specs.Formats.{request_line, response_line};
ghost use Rattle.text.specs.Held.{read_in};
ghost use Rattle.text.specs.Steps.{line_by};
ghost use Rattle.text.specs.Trace.{request_from, response_from, read_trace};

use crate::limits::{EVENTS, MOST_NUMBER, MOST_RID, REQUESTS, RESPONSES};
use crate::reading::{BadLine, Line, read_lines};
use arrayvec::ArrayVec;
use lines::line_at;

// request=rid,prog,a,b or response=rid,status,value
#[derive(Clone, Copy, Debug, PartialEq, Eq)]
pub enum Event {
    Request { rid: u64, prog: u64, a: u64, b: u64 },
    Response { rid: u64, status: u64, value: u64 },
}

// By hand, since a derive takes only a variant without fields.
impl Default for Event {
    ghost use Rattle.text.specs.declared.trace.Event.TheVariants.{Request};

    ghost is_default = { λ e. e ≡ Request 0 0 0 0 };

    fn default() -> Self {
        Event::Request {
            rid: 0,
            prog: 0,
            a: 0,
            b: 0,
        }
    }
}

pub type Trace = ArrayVec<Event, EVENTS>;

#[tactic(auto, unfolding(lines::specs::Place::found_in))]
fn request_at(s: &[u8], at: usize) -> Option<(Event, usize)>
    ensures { result ≡ line_by request_from (line_at request_line s.now at) }
{
    let max = MOST_NUMBER;
    let (v, end) = line_at(s, at, b"request=", &[MOST_RID, max, max, max])?;
    let [rid, prog, a, b] = v;
    Some((Event::Request { rid, prog, a, b }, end))
}

#[tactic(auto, unfolding(lines::specs::Place::found_in))]
fn response_at(s: &[u8], at: usize) -> Option<(Event, usize)>
    ensures { result ≡ line_by response_from (line_at response_line s.now at) }
{
    let (v, end) = line_at(s, at, b"response=", &[MOST_RID, 1, MOST_NUMBER])?;
    let [rid, status, value] = v;
    Some((Event::Response { rid, status, value }, end))
}

// How many requests and responses were read.
#[derive(Clone, Copy)]
pub(crate) struct Counts {
    requests: usize,
    responses: usize,
}

impl Line for Event {
    type Held = Trace;

    type Beside = Counts;

    ghost use Rattle.std.specs.Prelude.{List, []};
    ghost use Rattle.text.specs.Trace.{trace_kinds};
    ghost use Rattle.text.specs.Steps.{event_adds, Counted};
    ghost use Rattle.text.specs.declared.trace.Event.{Event};

    ghost read = { List Event };

    ghost kinds = { trace_kinds };

    ghost nothing = { [] };

    ghost adds = { event_adds };

    ghost least = { 0 };

    ghost held = { λ events _. events.items };

    ghost kept = { λ events n _. Counted events.items n.requests n.responses };

    fn line_at(s: &[u8], at: usize) -> Option<(Self, usize)> {
        request_at(s, at).or_else(|| response_at(s, at))
    }

    fn join(self, events: &mut Trace, counts: &mut Counts) -> bool {
        match self {
            Event::Request { .. } => {
                if REQUESTS <= counts.requests {
                    return false;
                }
                counts.requests += 1;
            }
            Event::Response { .. } => {
                if RESPONSES <= counts.responses {
                    return false;
                }
                counts.responses += 1;
            }
        }
        events.try_push(self).is_ok()
    }
}

// Reads a trace into events.
#[tactic(auto, unfolding(crate::specs::Trace::read_trace))]
pub fn read_trace(s: &[u8], events: &mut Trace) -> Result<(), BadLine>
    ensures { read_in result events.new.items ≡ read_trace s.now }
{
    events.clear();
    let mut counts = Counts {
        requests: 0,
        responses: 0,
    };
    read_lines::<Event>(s, events, &mut counts)
}
