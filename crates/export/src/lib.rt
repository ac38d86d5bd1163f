// The audit and the reference host for programs in Rust and C. A slice passes as its address and its length, a number as itself, and C has no
// Option, so a refusal is 0.
#![tactic(auto)]

mod numbers;

ghost use Rattle.std.specs.Prelude.{◌≡◌, ◌↔◌, get_or, length};
ghost use Rattle.verifier.specs.Accepts.{Accepts};
ghost use Rattle.verifier.specs.Faults.{audit_of};
ghost use Rattle.verifier.specs.Order.{order_of, order_numbers};
ghost use Rattle.verifier.specs.OrderRead.{OrderRead};
ghost use Rattle.verifier.specs.Printed.{printed_text};
ghost use Rattle.host.specs.Accepted.{Accepted};
ghost use Rattle.host.specs.Printed.{run_printed};
ghost use Rattle.host.specs.Recorded.{record_of};
ghost use Rattle.export.specs.Numbers.{if_room, handed, audit_numbers, record_from, RecordHanded, OrderHanded};
ghost use Rattle.export.specs.Printed.{PrintedIs};
ghost use Rattle.export.specs.Version.{version};

use numbers::{fill, numbers_of};

// The version's parts, of which minor and patch stay below 1,000.
const MAJOR: u64 = 0;

const MINOR: u64 = 6;

const PATCH: u64 = 1;

// The version as one number, by which a caller sees that the library is the one of its header.
#[unsafe(no_mangle)]
pub extern "C" fn teaselshears_version() -> u64
    ensures { result ≡ version }
{
    MAJOR * 1000000 + MINOR * 1000 + PATCH
}

// The verdict on three texts: verdict, line, requests, operations, blocks and rest to the front of out. The result is how many numbers were
// written: six, or none where out is too short for them, as is that of a caller who knows of four.
#[unsafe(no_mangle)]
pub extern "C" fn teaselshears_audit(
    programs: &[u8],
    trace: &[u8],
    report: &[u8],
    out: &mut [u64],
) -> usize
    ensures count { result ≡ if_room 6 out.old 6 0 }
    ensures numbers { out.new ≡ handed
        (audit_numbers (audit_of programs.now trace.now report.now)) out.old }
    ensures exactly { (result ≡ 6) →
        (get_or out.new 0 0 ≡ 0) ↔ Accepts programs.now trace.now report.now }
{
    if out.len() < 6 {
        return 0;
    }
    fill(out, &numbers_of(verifier::audit(programs, trace, report)));
    6
}

// The verdict on three texts with the order of an accepted batch: the six numbers of the verdict and how many the order has to the front of
// out, and these, two for each item, to the front of order. The result is how many numbers were written to out: seven, or none where out or
// order is too short, and then neither is touched.
#[unsafe(no_mangle)]
pub extern "C" fn teaselshears_order(
    programs: &[u8],
    trace: &[u8],
    report: &[u8],
    out: &mut [u64],
    order: &mut [u64],
) -> usize
    ensures meaning { OrderHanded (audit_of programs.now trace.now report.now)
        (order_numbers 1 (order_of programs.now trace.now report.now))
        out.old order.old out.new order.new result }
    ensures read { (result ≡ 7) → (get_or out.new 0 0 ≡ 0) →
        OrderRead programs.now trace.now report.now
        (order_of programs.now trace.now report.now) }
{
    if out.len() < 7 {
        return 0;
    }
    let r = verifier::audit_order(programs, trace, report, order);
    let Some(n) = r.order else {
        return 0;
    };
    fill(out, &numbers_of(r.audited));
    out[6] = n as u64;
    7
}

// The run of a schedule: its trace and its report to the fronts of two buffers, and verdict, line and the two lengths to the front of out.
// The result is how many numbers were written: four, or none where out is too short for them, and then neither buffer is touched.
#[unsafe(no_mangle)]
pub extern "C" fn teaselshears_record(
    programs: &[u8],
    schedule: &[u8],
    trace: &mut [u8],
    report: &mut [u8],
    out: &mut [u64],
) -> usize
    ensures meaning { RecordHanded
        (record_of programs.now schedule.now (length trace.old) (length report.old))
        trace.old report.old out.old trace.new report.new out.new result }
    ensures accepted { (result ≡ 4) → (get_or out.new 0 0 ≡ 0) → Accepted programs.now schedule.now
        trace.new report.new (record_from out.new) }
{
    if out.len() < 4 {
        return 0;
    }
    let r = host::record(programs, schedule, trace, report);
    fill(
        out,
        &[r.verdict, r.line, r.trace_len as u64, r.report_len as u64],
    );
    4
}

// What the program `audit` prints of three texts, to the front of out. The result is how many bytes were written: all, or none where out
// is too short for them.
#[unsafe(no_mangle)]
pub extern "C" fn teaselshears_audit_text(
    programs: &[u8],
    trace: &[u8],
    report: &[u8],
    out: &mut [u8],
) -> usize
    ensures { PrintedIs (printed_text programs.now trace.now report.now)
        out.old out.new result }
{
    verifier::audit_text(programs, trace, report, out).unwrap_or(0)
}

// What the program `record` prints of a schedule, to the front of out. The result is how many bytes were written: all, or none where out is
// too short for them.
#[unsafe(no_mangle)]
pub extern "C" fn teaselshears_record_text(
    programs: &[u8],
    schedule: &[u8],
    out: &mut [u8],
) -> usize
    ensures { PrintedIs
        (run_printed programs.now schedule.now)
        out.old out.new result }
{
    host::record_text(programs, schedule, out).unwrap_or(0)
}
