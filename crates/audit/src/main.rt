// Audits programs.txt, trace.txt and report.txt in the working directory, and prints the result. A missing file is an empty text; one that
// is there and cannot be read to its end is said on standard error, and then nothing is printed.
#![tactic(auto)]

ghost use Rattle.std.specs.Prelude.{◌≡◌, length};
ghost use Rattle.lines.specs.Put.{front};
ghost use Rattle.verifier.specs.Printed.{printed_text};

use files::{Unread, front, read_file, write_front};
use verifier::{PRINTED, TEXT_ROOM, audit_text};

// As much as is ever printed (`most_printed`).
const ROOM: usize = PRINTED;

// What is printed, to the front of out, and how long it is. It has room whatever the texts are.
fn fill(programs: &[u8], trace: &[u8], report: &[u8], out: &mut [u8; ROOM]) -> usize
    ensures count { result ≡ length (printed_text programs.now trace.now report.now) }
    ensures bytes { out.new ≡ front
        (printed_text programs.now trace.now report.now) out.old }
{
    audit_text(programs, trace, report, out).unwrap_or(0)
}

fn print(rt: &HostRuntime, programs: &[u8], trace: &[u8], report: &[u8]) {
    let mut out = [0u8; ROOM];
    let n = fill(programs, trace, report, &mut out);
    write_front(rt, &out, n);
}

// Reads the three texts and prints the audit of them. What could not be read is said where it is read.
fn run(rt: &HostRuntime) -> Result<(), Unread> {
    let mut programs = [0u8; TEXT_ROOM];
    let mut trace = [0u8; TEXT_ROOM];
    let mut report = [0u8; TEXT_ROOM];
    let p = read_file(rt, b"programs.txt", &mut programs)?;
    let t = read_file(rt, b"trace.txt", &mut trace)?;
    let r = read_file(rt, b"report.txt", &mut report)?;
    print(rt, front(&programs, p), front(&trace, t), front(&report, r));
    Ok(())
}

// The status is 0 where a text could not be read too.
fn main(rt: HostRuntime) {
    let _ = run(&rt);
}
