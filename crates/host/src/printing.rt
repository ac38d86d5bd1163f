// The run of a schedule as the program prints it.
ghost use Rattle.std.specs.Prelude.{◌++◌, ◌≤◌, length};
ghost use Rattle.lines.specs.Put.{PutIs};
ghost use Rattle.writing.specs.Verdict.{verdict_text};
ghost use Rattle.host.specs.Printed.{run_printed, most_printed};

use crate::records::record;
use lines::put_bytes;
use text::TEXT_BYTES;
use writing::{put_verdict, verdict_width};

// As much as is ever printed (`most_printed`): the verdict lines, and the two texts.
pub const PRINTED: usize = 55 + 2 * TEXT_BYTES;

// Writes the verdict with its line, a trace and a report to the front of out, or nothing where out is too short.
fn put_recorded(
    verdict: u64,
    line: u64,
    trace: &[u8],
    report: &[u8],
    out: &mut [u8],
) -> Option<usize>
    ensures { PutIs (verdict_text verdict line ++ (trace.now ++ report.now))
        out.old out.new result }
{
    // No sum is taken before there is room, since none is known to stay below 2^64.
    let room = out.len().checked_sub(verdict_width(verdict, line))?;
    room.checked_sub(trace.len())?.checked_sub(report.len())?;
    let mut at = put_verdict(out, verdict, line)?;
    at += put_bytes(&mut out[at..], trace)?;
    at += put_bytes(&mut out[at..], report)?;
    Some(at)
}

// The run of a schedule as it is printed: the verdict with its line, then trace and report, to the front of out, or nothing where out is
// too short, which one of `most_printed` bytes never is. The two buffers are as long as a text may be, so that row 16 cannot come
// (`never-short`).
pub fn record_text(programs: &[u8], schedule: &[u8], out: &mut [u8]) -> Option<usize>
    ensures printed { PutIs
        (run_printed programs.now schedule.now)
        out.old out.new result }
    ensures most { length (run_printed programs.now schedule.now) ≤ most_printed }
{
    let mut trace = [0; TEXT_BYTES];
    let mut report = [0; TEXT_BYTES];
    let r = record(programs, schedule, &mut trace, &mut report);
    put_recorded(
        r.verdict,
        r.line,
        &trace[..r.trace_len],
        &report[..r.report_len],
        out,
    )
}
