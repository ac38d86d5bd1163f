// The reference host: programs and a schedule are read, the schedule is run, and what it means is written.
ghost use Rattle.std.specs.Prelude.{◌≡◌, length};
ghost use Rattle.host.specs.Accepted.{Accepted};
ghost use Rattle.host.specs.Recorded.{record_of, RecordIs};
ghost use Rattle.text.specs.Held.{moves_in};
ghost use Rattle.machine.specs.Objects.{at_start};
ghost use Rattle.host.specs.Runs.{Known, Scheduled, full_table, recorded_moves};
ghost use Rattle.host.specs.Steps.{recorded_of};

use crate::Recorded;
use crate::outputs::{Written, write_run};
use crate::refusals::Refusal;
use crate::runs::Run;
use machine::check_rules;
use text::{Programs, Schedule, read_programs, read_schedule};

// Rows 14 and 16, of programs and a schedule that were read. What a run takes is made in here, where it is needed: a function clears its
// locals when it begins.
fn record_moves(
    programs: &Programs,
    schedule: &Schedule,
    trace: &mut [u8],
    report: &mut [u8],
) -> Result<Written, Refusal>
    requires programs { Known programs.now }
    requires schedule { Scheduled (moves_in schedule.now) }
    ensures { RecordIs
        (recorded_moves at_start (full_table programs.now) (moves_in schedule.now) (length trace.old) (length report.old))
        trace.old report.old trace.new report.new (recorded_of result) }
{
    let mut run = Run::new();
    run.play(programs, schedule).map_err(Refusal::Run)?;
    write_run(&run, trace, report)
}

// The checks in their order, and the two texts where none finds a fault.
fn run_texts(
    programs: &[u8],
    schedule: &[u8],
    trace: &mut [u8],
    report: &mut [u8],
) -> Result<Written, Refusal>
    ensures { RecordIs
        (record_of programs.now schedule.now (length trace.old) (length report.old))
        trace.old report.old trace.new report.new (recorded_of result) }
{
    let mut table = Programs::new();
    read_programs(programs, &mut table).map_err(Refusal::Programs)?;
    check_rules(&table).map_err(Refusal::Rules)?;
    let mut moves = Schedule::new();
    read_schedule(schedule, &mut moves).map_err(Refusal::Schedule)?;
    record_moves(&table, &moves, trace, report)
}

// What programs and a schedule mean: the trace to the front of one buffer, the report to the front of the other. A refusal writes nothing.
pub fn record(programs: &[u8], schedule: &[u8], trace: &mut [u8], report: &mut [u8]) -> Recorded
    ensures meaning { RecordIs
        (record_of programs.now schedule.now (length trace.old) (length report.old))
        trace.old report.old trace.new report.new result }
    ensures accepted { (result.verdict ≡ 0) →
        Accepted programs.now schedule.now trace.new report.new result }
{
    match run_texts(programs, schedule, trace, report) {
        Ok(Written { trace, report }) => Recorded {
            verdict: 0,
            line: 0,
            trace_len: trace,
            report_len: report,
        },
        Err(refusal) => {
            let (verdict, line) = refusal.numbers();
            Recorded {
                verdict,
                // u64 has no From for usize.
                line: line as u64,
                trace_len: 0,
                report_len: 0,
            }
        }
    }
}
