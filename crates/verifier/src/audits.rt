// The audit of three texts: one row after the other, up to the first fault.
ghost use Rattle.std.specs.Prelude.{◌≡◌, ◌↔◌};
ghost use Rattle.lines.specs.Put.{PutIs};
ghost use Rattle.verifier.specs.Accepts.{Accepts};
ghost use Rattle.model.specs.Checks.{verdict};
ghost use Rattle.machine.specs.Rules.{broken_line};
ghost use Rattle.verifier.specs.Faults.{audited, audit_of};
ghost use Rattle.verifier.specs.Order.{order_of, order_numbers};
ghost use Rattle.verifier.specs.OrderRead.{OrderRead};
ghost use Rattle.verifier.specs.Steps.{refusal, fault_at, ProgramsChecked, BatchChecked, OrderedIs};

use crate::Audited;
use crate::orders::{Ordered, put_numbers};
use machine::{Objects, check_rules};
use replay::{Batch, Fault, judge};
use rows::{row_4, row_6, row_7};
use text::{BadLine, Log, Ofs, Programs, Trace, read_programs, read_report, read_trace};

// A line that is unreadable or breaks a row, as the fault of that row.
fn in_row(row: u64, read: Result<(), BadLine>) -> Result<(), Fault>
    ensures { result ≡ fault_at row (broken_line read) }
{
    match read {
        Ok(()) => Ok(()),
        Err(e) => Err(Fault {
            row,
            line: e.line as u64,
        }),
    }
}

// A refusal, whose counts are 0.
fn refused(f: Fault) -> Audited
    ensures { result ≡ refusal f.row f.line }
{
    Audited {
        verdict: f.row,
        line: f.line,
        requests: 0,
        operations: 0,
        blocks: 0,
        rest: 0,
    }
}

// An acceptance of a batch with these counts.
fn accepted(requests: usize, operations: usize) -> Audited
    ensures { result ≡ audited (verdict 0 0) requests operations }
{
    // u64 has no From for usize.
    let n = operations as u64;
    Audited {
        verdict: 0,
        line: 0,
        requests: requests as u64,
        operations: n,
        blocks: n / 100,
        rest: n % 100,
    }
}

// Rows 1 and 2. The programs go into the table.
fn check_programs(programs: &[u8], table: &mut Programs) -> Result<(), Fault>
    ensures { ProgramsChecked programs.now table.new result }
{
    in_row(1, read_programs(programs, table))?;
    in_row(2, check_rules(table))
}

// Rows 4 to 7, where so many programs are known. The report goes into ofs and log.
fn check_batch(
    programs: usize,
    events: &Trace,
    report: &[u8],
    ofs: &mut Ofs,
    log: &mut Log,
) -> Result<(), Fault>
    ensures { BatchChecked programs events.now.items report.now ofs.new.items log.new.items result }
{
    in_row(4, row_4(events, programs))?;
    in_row(5, read_report(report, ofs, log))?;
    in_row(6, row_6(events, ofs))?;
    in_row(7, row_7(ofs, log))
}

// The audit up to the first fault, and behind the last row the order to the front of out. Tables are made when they are needed, so that a
// batch which is refused early is refused quickly.
fn order(programs: &[u8], trace: &[u8], report: &[u8], out: &mut [u64]) -> Result<Ordered, Fault>
    ensures { OrderedIs programs.now trace.now report.now out.old out.new result }
{
    let mut table = Programs::new();
    check_programs(programs, &mut table)?;
    let mut events = Trace::new();
    in_row(3, read_trace(trace, &mut events))?;
    let mut ofs = Ofs::new();
    let mut log = Log::new();
    check_batch(table.n, &events, report, &mut ofs, &mut log)?;
    let batch = Batch {
        events: &events,
        ofs: &ofs,
        log: &log,
    };
    judge(&table, batch, &mut Objects::new())?;
    Ok(Ordered {
        audited: accepted(ofs.len(), log.len()),
        order: put_numbers(batch, out),
    })
}

// The audit of three texts, and the order of an accepted batch to the front of out, or nothing where out is too short. A refused batch has
// no order.
pub fn audit_order(programs: &[u8], trace: &[u8], report: &[u8], out: &mut [u64]) -> Ordered
    ensures meaning { result.audited ≡ audit_of programs.now trace.now report.now }
    ensures order { PutIs (order_numbers 1 (order_of programs.now trace.now report.now))
        out.old out.new result.order }
    ensures read { result.audited.verdict ≡ 0 → OrderRead programs.now trace.now report.now
        (order_of programs.now trace.now report.now) }
{
    match order(programs, trace, report, out) {
        Ok(ordered) => ordered,
        Err(f) => Ordered {
            audited: refused(f),
            order: Some(0),
        },
    }
}

// The verdict on three texts: the first fault, or none. Verdict 0 says that an order exists which demand 3 allows. It lends no room for the
// order, so that none is made.
pub fn audit(programs: &[u8], trace: &[u8], report: &[u8]) -> Audited
    ensures meaning { result ≡ audit_of programs.now trace.now report.now }
    ensures exactly { (result.verdict ≡ 0) ↔ Accepts programs.now trace.now report.now }
{
    audit_order(programs, trace, report, &mut []).audited
}
