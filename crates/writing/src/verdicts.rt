// The verdict with its line, which both programs print first. Two numbers, as they are handed to C.
ghost use Rattle.std.specs.Prelude.{◌≡◌, ◌≤◌, length};
ghost use Rattle.lines.specs.Put.{PutIs};
ghost use Rattle.writing.specs.Verdict.{verdict_text};

use lines::{append_line, numbers_width};

// How long they are; their words have 13 bytes.
pub fn verdict_width(verdict: u64, line: u64) -> usize
    ensures value { result ≡ length (verdict_text verdict line) }
    ensures upper_bound { result ≤ 55 }
{
    13 + numbers_width(&[verdict, line])
}

// Writes them to the front of out, or nothing where out is too short.
pub fn put_verdict(out: &mut [u8], verdict: u64, line: u64) -> Option<usize>
    ensures { PutIs (verdict_text verdict line) out.old out.new result }
{
    if out.len() < verdict_width(verdict, line) {
        return None;
    }
    let at = append_line(out, 0, b"verdict=", &[verdict]);
    Some(append_line(out, at, b"line=", &[line]))
}
