// The audit as the lines that the program prints.
ghost use Rattle.std.specs.Prelude.{◌≡◌, ◌++◌, ◌≤◌, min, length};
ghost use Rattle.lines.specs.Put.{PutIs};
ghost use Rattle.text.specs.Held.{most_items};
ghost use Rattle.writing.specs.Order.{items_text};
ghost use Rattle.verifier.specs.Printed.{audited_text, printed_text, most_audited, most_printed};

use crate::Audited;
use crate::audits::audit_order;
use lines::{append_line, numbers_width};
use text::{ENTRIES, EVENTS, ITEM_ROWS};
use writing::{order_width, put_order, put_verdict};

// As much as is ever printed (`most_printed`): the verdict lines, `op=65535,256` for each log line, and `event=128` for each event.
pub const PRINTED: usize = 171 + 13 * ENTRIES + 10 * EVENTS;

// How long the verdict lines are; their words have 45 bytes.
fn audited_width(a: Audited) -> usize
    ensures value { result ≡ length (audited_text a) }
    ensures upper_bound { result ≤ most_audited }
{
    45 + numbers_width(&[
        a.verdict,
        a.line,
        a.requests,
        a.operations,
        a.blocks,
        a.rest,
    ])
}

// Writes the verdict lines to the front of out, or nothing where out is too short.
fn put_audited(a: Audited, out: &mut [u8]) -> Option<usize>
    ensures { PutIs (audited_text a) out.old out.new result }
{
    if out.len() < audited_width(a) {
        return None;
    }
    // There is room for all of it, so that each writer writes.
    let mut at = put_verdict(out, a.verdict, a.line).unwrap_or(0);
    at = append_line(out, at, b"requests=", &[a.requests]);
    at = append_line(out, at, b"operations=", &[a.operations]);
    at = append_line(out, at, b"blocks=", &[a.blocks]);
    at = append_line(out, at, b"rest=", &[a.rest]);
    Some(at)
}

// Writes the verdict lines and the first n items of an order to the front of out, or nothing where out is too short.
fn put_printed(a: Audited, items: &[u64; ITEM_ROWS], n: usize, out: &mut [u8]) -> Option<usize>
    ensures put_is { PutIs (audited_text a ++ items_text items.now (min n most_items)) out.old out.new result }
    ensures a_len_bound { length (audited_text a) ≤ most_audited }
{
    if out.len() < audited_width(a) + order_width(items, n) {
        return None;
    }
    // There is room for both.
    let at = put_audited(a, out).unwrap_or(0);
    Some(at + put_order(&mut out[at..], items, n).unwrap_or(0))
}

// The audit of three texts as it is printed: its verdict lines and the order of an accepted batch to the front of out, or nothing where out is
// too short, which one of `most_printed` bytes never is.
pub fn audit_text(programs: &[u8], trace: &[u8], report: &[u8], out: &mut [u8]) -> Option<usize>
    ensures printed { PutIs (printed_text programs.now trace.now report.now)
        out.old out.new result }
    ensures most { length (printed_text programs.now trace.now report.now) ≤ most_printed }
{
    let mut items = [0u64; ITEM_ROWS];
    let ordered = audit_order(programs, trace, report, &mut items);
    let numbers = ordered.order.unwrap_or(0);
    put_printed(ordered.audited, &items, numbers / 2, out)
}
