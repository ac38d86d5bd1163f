// Row 16, and the two texts written: both lengths are computed before the first byte, so that a refusal leaves both buffers as they were.
ghost use Rattle.std.specs.Prelude.{◌≡◌, length};
ghost use Rattle.host.specs.Recorded.{fitted, texts_of, RecordIs};
ghost use Rattle.host.specs.Runs.{batch_kept};
ghost use Rattle.host.specs.Steps.{batch_in, recorded_of};

use crate::logs::by_object;
use crate::refusals::Refusal;
use crate::runs::Run;
use text::{Log, Ofs, Trace};
use writing::{put_report, put_trace, report_width, trace_width};

// How long the two texts are that were written.
#[derive(Clone, Copy)]
pub struct Written {
    pub trace: usize,
    pub report: usize,
}

// The texts of a batch into the two buffers, or row 16 where one is too short.
fn write_texts(
    events: &Trace,
    ofs: &Ofs,
    log: &Log,
    trace: &mut [u8],
    report: &mut [u8],
) -> Result<Written, Refusal>
    ensures { RecordIs
        (fitted (length trace.old) (length report.old) (texts_of (batch_in events.now ofs.now log.now)))
        trace.old report.old trace.new report.new (recorded_of result) }
{
    if trace.len() < trace_width(events) {
        return Err(Refusal::Short);
    }
    if report.len() < report_width(ofs, log) {
        return Err(Refusal::Short);
    }
    let t = put_trace(trace, events);
    let r = put_report(report, ofs, log);
    Ok(Written {
        trace: t.unwrap_or(0),
        report: r.unwrap_or(0),
    })
}

// The texts of what is kept at the end of a run, its log by rising object.
pub(crate) fn write_run(run: &Run, trace: &mut [u8], report: &mut [u8]) -> Result<Written, Refusal>
    ensures { RecordIs
        (fitted (length trace.old) (length report.old) (texts_of (batch_kept run.now)))
        trace.old report.old trace.new report.new (recorded_of result) }
{
    let mut sorted = Log::new();
    by_object(&run.log, &mut sorted);
    write_texts(&run.trace, &run.ofs, &sorted, trace, report)
}
