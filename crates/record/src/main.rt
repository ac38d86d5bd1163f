// Runs the schedule of schedule.txt with the programs of programs.txt, both in the working directory, and prints the result, the trace and
// the report. A missing file is an empty text; one that is there and cannot be read to its end is said on standard error, and then nothing
// is printed.
#![tactic(auto)]

ghost use Rattle.std.specs.Prelude.{◌≡◌, length};
ghost use Rattle.lines.specs.Put.{front};
ghost use Rattle.host.specs.Printed.{run_printed};

use files::{Unread, front, read_file, write_front};
use host::{PRINTED, TEXT_ROOM, record_text};

// As much as is ever printed (`most_printed`).
const ROOM: usize = PRINTED;

// What is printed, to the front of out, and how long it is. It has room whatever the texts are.
fn fill(programs: &[u8], schedule: &[u8], out: &mut [u8; ROOM]) -> usize
    ensures count { result ≡ length (run_printed programs.now schedule.now) }
    ensures bytes { out.new ≡ front
        (run_printed programs.now schedule.now) out.old }
{
    record_text(programs, schedule, out).unwrap_or(0)
}

fn print(rt: &HostRuntime, programs: &[u8], schedule: &[u8]) {
    let mut out = [0u8; ROOM];
    let n = fill(programs, schedule, &mut out);
    write_front(rt, &out, n);
}

// Reads both texts and prints the run of them. What could not be read is said where it is read.
fn run(rt: &HostRuntime) -> Result<(), Unread> {
    let mut programs = [0u8; TEXT_ROOM];
    let mut schedule = [0u8; TEXT_ROOM];
    let p = read_file(rt, b"programs.txt", &mut programs)?;
    let s = read_file(rt, b"schedule.txt", &mut schedule)?;
    print(rt, front(&programs, p), front(&schedule, s));
    Ok(())
}

// The status is 0 where a text could not be read too.
fn main(rt: HostRuntime) {
    let _ = run(&rt);
}
