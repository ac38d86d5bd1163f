// Schedules: what is printed is the name and verdict, line, the lengths of trace and report, and a sum over each buffer.
ghost use Rattle.std.specs.Prelude.{◌<◌, length, IfSome};

use crate::checksums::sum;
use crate::containers::{Header, part, print_line, read_header};
use host::{TEXT_ROOM, record};

// Runs a schedule with buffers of t and n bytes lent for trace and report, or of as many as a text may have: what is printed of it. The
// buffers hold bytes before that no text has.
fn recorded(programs: &[u8], schedule: &[u8], t: usize, n: usize) -> [u64; 6] {
    let mut trace = [254u8; TEXT_ROOM];
    let mut report = [255u8; TEXT_ROOM];
    let r = record(
        programs,
        schedule,
        &mut trace[..t.min(TEXT_ROOM)],
        &mut report[..n.min(TEXT_ROOM)],
    );
    [
        r.verdict,
        r.line,
        r.trace_len as u64,
        r.report_len as u64,
        sum(&trace),
        sum(&report),
    ]
}

// Runs the schedule at the front of s and prints the result: what stands behind it, or None where there is none.
pub(crate) fn run_schedule<'a>(rt: &HostRuntime, s: &'a [u8]) -> Option<&'a [u8]>
    ensures { IfSome result (λ r. 0 < length s.now → length r.now < length s.now) }
{
    let (header, lengths): (Header, [u64; 4]) = read_header(s)?;
    let [programs, schedule, trace, report] = lengths;
    let (programs, rest) = part(header.rest, programs as usize);
    let (schedule, rest) = part(rest, schedule as usize);
    let numbers = recorded(programs, schedule, trace as usize, report as usize);
    print_line(rt, header.name, &numbers);
    Some(rest)
}
