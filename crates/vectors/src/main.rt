// Runs stored vectors through the proved audit and the proved host, and prints a line for each. The vectors, in data/, and what must be
// printed, the file stdout, are made by the other implementation (`tools/compare --write-vectors`).
//
// A file of vectors is one vector after the other. A vector is a header and its texts. The header is a name that ends in '=', numbers
// parted by commas, and a line feed. A batch has three numbers, the lengths of programs, trace and report; a schedule has four, the lengths
// of programs and schedule and of the buffers that are lent for trace and report. The texts follow with nothing between them.
#![tactic(auto)]

mod batches;
mod checksums;
mod containers;
mod schedules;

ghost use Rattle.std.specs.Prelude.{◌<◌, length, IfSome};

use batches::run_batch;
use files::{BUFFER_BYTES, Unread, front, read_file};
use schedules::run_schedule;

// Runs the vector at the front of s: what stands behind it, or None where it cannot be read.
fn run_vector<'a>(rt: &HostRuntime, s: &'a [u8]) -> Option<&'a [u8]>
    ensures { IfSome result (λ r. 0 < length s.now → length r.now < length s.now) }
{
    run_batch(rt, s).or_else(|| run_schedule(rt, s))
}

// Runs the vectors of s, one after the other.
fn run_vectors(rt: &HostRuntime, s: &[u8]) {
    let mut rest = s;
    // Each vector says where the next begins.
    while !rest.is_empty() {
        let Some(behind) = run_vector(rt, rest) else {
            let _ = eprintln!(rt; "a header is unreadable");
            return;
        };
        rest = behind;
    }
}

// Runs the vectors of a file. Where it is missing or cannot be read, lines are missing from what is printed.
fn run_file(rt: &HostRuntime, path: &[u8]) -> Result<(), Unread> {
    let mut buf = [0u8; BUFFER_BYTES];
    let n = read_file(rt, path, &mut buf)?;
    run_vectors(rt, front(&buf, n));
    Ok(())
}

// A file that cannot be read keeps no other from being run.
fn main(rt: HostRuntime) {
    let _ = run_file(&rt, b"vectors-1.txt");
    let _ = run_file(&rt, b"vectors-2.txt");
    let _ = run_file(&rt, b"vectors-3.txt");
}
