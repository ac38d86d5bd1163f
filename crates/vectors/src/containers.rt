// What batches and schedules share: the header of a vector, the parts of a file, and the line that is printed.
ghost use Rattle.std.specs.Prelude.{◌≡◌, ◌-◌, ◌<◌, length, take, drop, IfSome};

use files::write_front;
use lines::{line_at, put_line};
use verifier::TEXT_ROOM;

// No text of a vector is longer, nor a buffer that is lent for one.
const MOST_LENGTH: u64 = TEXT_ROOM as u64;

// The name of a vector, with its '=', and what stands behind its header.
#[derive(Clone, Copy, Debug, PartialEq, Eq)]
pub(crate) struct Header<'a> {
    pub name: &'a [u8],
    pub rest: &'a [u8],
}

// The first n bytes of s, or all, and those behind them.
pub(crate) fn part(s: &[u8], n: usize) -> (&[u8], &[u8])
    ensures first { result.0.now ≡ take n s.now }
    ensures behind { result.1.now ≡ drop n s.now }
{
    s.split_at(n.min(s.len()))
}

// The header at the front of s, and its numbers. (As sizes they are cast: usize has no From for a u64.)
pub(crate) fn read_header<'a, const N: usize>(s: &'a [u8]) -> Option<(Header<'a>, [u64; N])>
    ensures name { IfSome result (λ h. h.0.name.now ≡ take (length h.0.name.now) s.now) }
    ensures rest { IfSome result (λ h. h.0.rest.now ≡ drop (length s.now - length h.0.rest.now) s.now) }
    ensures shorter { IfSome result (λ h. 0 < length s.now → length h.0.rest.now < length s.now) }
{
    let equals = s.iter().position(|b| *b == b'=').unwrap_or(s.len());
    let (name, _) = part(s, equals.saturating_add(1));
    let (numbers, end) = line_at(s, 0, name, &[MOST_LENGTH; N])?;
    let (_, rest) = part(s, end.saturating_add(1));
    Some((Header { name, rest }, numbers))
}

// Prints a line: a name and numbers.
pub(crate) fn print_line(rt: &HostRuntime, name: &[u8], numbers: &[u64]) {
    let mut out = [0u8; 256];
    let Some(n) = put_line(&mut out, name, numbers) else {
        let _ = eprintln!(rt; "a name is too long");
        return;
    };
    write_front(rt, &out, n);
}
