// Row 4, over the events of a trace that was read.
ghost use Rattle.std.specs.Prelude.{◌≡◌, ltb};
ghost use Rattle.model.specs.Requests.{row4};
ghost use Rattle.machine.specs.Rules.{broken_line};
ghost use Rattle.rows.specs.Steps.{alike, has_like, may_stand};

use text::{BadLine, Event};

// Whether two events are of one kind and one rid.
fn like(d: Event, e: Event) -> bool
    ensures { result ≡ alike d e }
{
    match (d, e) {
        (Event::Request { rid: q, .. }, Event::Request { rid, .. })
        | (Event::Response { rid: q, .. }, Event::Response { rid, .. }) => q == rid,
        _ => false,
    }
}

// Whether one of several events is like e.
fn has_like(events: &[Event], e: Event) -> bool
    ensures { result ≡ has_like e events.now }
{
    events.iter().any(|d| like(*d, e))
}

// Whether e may stand behind the events above it, unless one of them is like it: a request of a known program, or a response to a request.
fn may_stand(above: &[Event], e: Event, programs: usize) -> bool
    ensures { result ≡ may_stand (λ prog. ltb prog programs) above.now e }
{
    match e {
        // u64 has no From for usize.
        Event::Request { prog, .. } => prog < programs as u64,
        Event::Response { rid, .. } => has_like(
            above,
            Event::Request {
                rid,
                prog: 0,
                a: 0,
                b: 0,
            },
        ),
    }
}

// Row 4 line by line: rid used twice, unknown program, response with no open request. The lines above are scanned here, left by a label, as the
// scope has it.
pub fn row_4(events: &[Event], programs: usize) -> Result<(), BadLine>
    ensures { broken_line result ≡ row4 (λ prog. ltb prog programs) events.now }
{
    'lines: {
        for (i, event) in events.iter().enumerate() {
            let above = &events[..i];
            if !may_stand(above, *event, programs) {
                break 'lines Err(BadLine { line: i + 1 });
            }
            for earlier in above {
                if like(*earlier, *event) {
                    break 'lines Err(BadLine { line: i + 1 });
                }
            }
        }
        Ok(())
    }
}
