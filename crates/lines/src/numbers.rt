// A decimal number: no sign, no leading zero, below 2^64. It is read here, since std's `parse` takes a plus and leading zeros.
ghost use Rattle.std.specs.Prelude.{◌≡◌, ◌+◌, ◌<◌, ◌≤◌, length};
ghost use Rattle.lines.specs.Number.{push_of};
ghost use Rattle.lines.specs.Place.{spelled_at};
ghost use Rattle.lines.specs.Steps.{ends_of, spelling};

// The value of the digit b; more than 9 where b is none, and no Option, since its callers compare it anyway.
fn digit(b: u8) -> u64
    ensures result_value { result ≤ 9 → result + 48 ≡ b }
    ensures lt_b { 9 < result → 48 ≤ b → 57 < b }
{
    u64::from(b.wrapping_sub(b'0'))
}

// v with the digit b behind it. The first test is the one that most digits need: below it no sum reaches 2^64.
#[tactic(auto, using(crate::proofs::Numerals::digit_cases))]
fn push(v: u64, b: u8) -> Option<u64>
    ensures { result ≡ push_of v b }
{
    let d = digit(b);
    if 9 < d {
        return None;
    }
    if v < u64::MAX / 10 {
        return Some(v * 10 + d);
    }
    v.checked_mul(10)?.checked_add(d)
}

// Whether b ends a number: a comma or a line feed.
#[tactic(auto, unfolding(crate::specs::Steps::ends_of))]
fn ends(b: u8) -> bool
    ensures { result ≡ ends_of b }
{
    matches!(b, b',' | b'\n')
}

// The digits from at on, behind the number `first`: the number, and where it ends.
#[tactic(auto, using(crate::proofs::Spelling::spelling_cases))]
fn digits_at(s: &[u8], at: usize, first: u64) -> Option<(u64, usize)>
    requires { at ≤ length s.now }
    ensures { result ≡ spelling first s.now at }
{
    let mut v = first;
    // The answer has the place, so the loop goes over places.
    for i in at..s.len() {
        match push(v, s[i]) {
            Some(w) => v = w,
            None => return ends(s[i]).then_some((v, i)),
        }
    }
    Some((v, s.len()))
}

// The number from at on, up to a comma, a line feed or the end; and where it ends.
#[tactic(auto, using(crate::proofs::Spelling::number_cases))]
pub(crate) fn number_at(s: &[u8], at: usize) -> Option<(u64, usize)>
    ensures { result ≡ spelled_at s.now at }
{
    let d = digit(*s.get(at)?);
    if 9 < d {
        return None;
    }
    let e = at + 1;
    if d != 0 {
        return digits_at(s, e, d);
    }
    if e < s.len() && !ends(s[e]) {
        return None;
    }
    Some((0, e))
}
