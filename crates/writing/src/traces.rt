// Writing a trace: how long it is, and its lines to the front of a lent buffer.
ghost use Rattle.std.specs.Prelude.{◌≡◌, length};
ghost use Rattle.lines.specs.Put.{PutIs};
ghost use Rattle.text.specs.Written.{trace_text};

use crate::records::{Line, put_lines, widths};
use lines::{numbers_width, put_line};
use text::{Event, Trace};

impl Line for Event {
    ghost use Rattle.std.proofs.Common.{lit≤};
    ghost use Rattle.text.specs.Written.{event_text};

    ghost text = { event_text };

    ghost most = { 135 };

    ghost short = { lit≤ tt };

    #[tactic(auto, using(crate::proofs::LineLists::line_lengths), unfolding(text::specs::Written::event_text))]
    fn width(&self) -> usize {
        match *self {
            Event::Request { rid, prog, a, b } => 8 + numbers_width(&[rid, prog, a, b]),
            Event::Response { rid, status, value } => 9 + numbers_width(&[rid, status, value]),
        }
    }

    #[tactic(auto, unfolding(text::specs::Written::event_text))]
    fn put(&self, out: &mut [u8]) -> Option<usize> {
        match *self {
            Event::Request { rid, prog, a, b } => put_line(out, b"request=", &[rid, prog, a, b]),
            Event::Response { rid, status, value } => {
                put_line(out, b"response=", &[rid, status, value])
            }
        }
    }
}

// How long the events are as a text.
#[tactic(auto, unfolding(text::specs::Written::trace_text))]
pub fn trace_width(events: &Trace) -> usize
    ensures { result ≡ length (trace_text events.now.items) }
{
    widths(events.as_slice())
}

// Writes them to the front of out, or nothing where out is too short.
#[tactic(auto, unfolding(text::specs::Written::trace_text))]
pub fn put_trace(out: &mut [u8], events: &Trace) -> Option<usize>
    ensures { PutIs (trace_text events.now.items) out.old out.new result }
{
    put_lines(out, events.as_slice())
}
