// Batches: what is printed is the name and verdict, line, requests and operations, and of the text that `audit` prints the length and a sum.
ghost use Rattle.std.specs.Prelude.{◌<◌, length, IfSome};

use crate::checksums::sum;
use crate::containers::{Header, part, print_line, read_header};
use files::front;
use verifier::{PRINTED, audit, audit_text};

// What is printed of a batch.
fn found(programs: &[u8], trace: &[u8], report: &[u8]) -> [u64; 6] {
    let a = audit(programs, trace, report);
    let mut out = [0u8; PRINTED];
    let n = audit_text(programs, trace, report, &mut out).unwrap_or(0);
    [
        a.verdict,
        a.line,
        a.requests,
        a.operations,
        n as u64,
        sum(front(&out, n)),
    ]
}

// Audits the batch at the front of s and prints the result: what stands behind it, or None where there is none.
pub(crate) fn run_batch<'a>(rt: &HostRuntime, s: &'a [u8]) -> Option<&'a [u8]>
    ensures { IfSome result (λ r. 0 < length s.now → length r.now < length s.now) }
{
    let (header, lengths): (Header, [u64; 3]) = read_header(s)?;
    let [programs, trace, report] = lengths;
    let (programs, rest) = part(header.rest, programs as usize);
    let (trace, rest) = part(rest, trace as usize);
    let (report, rest) = part(rest, report as usize);
    print_line(rt, header.name, &found(programs, trace, report));
    Some(rest)
}
