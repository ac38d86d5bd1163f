// Numbers and lines written to the front of a lent buffer. No Display: each is written whole or not at all, and how many bytes it took is said.
ghost use Rattle.std.specs.Prelude.{◌≡◌, ◌*◌, ◌≤◌, length, take};
ghost use Rattle.lines.specs.Decimal.{decimal};
ghost use Rattle.lines.specs.LineText.{separator_of, numbers_text, line_text};
ghost use Rattle.lines.specs.Append.{AppendIs};
ghost use Rattle.lines.specs.Put.{front, PutIs};
ghost use Rattle.lines.specs.Steps.{room_behind};

// The most numbers that are measured at once.
pub const FIELDS: usize = 6;

// The most bytes that a number takes, with what stands behind it.
const WIDEST: usize = 21;

// How many bytes v takes in decimal. (usize has no From for the u32 of a logarithm, and none narrows a digit to a byte.)
pub(crate) fn width(v: u64) -> usize
    ensures value { result ≡ length (decimal v) }
    ensures upper_bound { result ≤ 20 }
{
    v.checked_ilog10().unwrap_or(0) as usize + 1
}

// Writes v to the front of out, which has room for it. Two digits a call: half the calls for a long number.
#[tactic(auto, using(crate::proofs::Decimals::decimal_lengths))]
fn fill_number(out: &mut [u8], v: u64) -> usize
    requires { length (decimal v) ≤ length out.old }
    ensures value { result ≡ length (decimal v) }
    ensures out_after { out.new ≡ front (decimal v) out.old }
{
    if v < 10 {
        out[0] = b'0' + v as u8;
        return 1;
    }
    if v < 100 {
        out[0] = b'0' + (v / 10) as u8;
        out[1] = b'0' + (v % 10) as u8;
        return 2;
    }
    let n = fill_number(out, v / 100);
    out[n] = b'0' + (v / 10 % 10) as u8;
    out[n + 1] = b'0' + (v % 10) as u8;
    n + 2
}

// Writes v to the front of out, or nothing where out is too short; and how many bytes it wrote.
pub fn put_number(out: &mut [u8], v: u64) -> Option<usize>
    ensures { PutIs (decimal v) out.old out.new result }
{
    if out.len() < width(v) {
        return None;
    }
    Some(fill_number(out, v))
}

// What stands behind number i of n.
#[tactic(auto, unfolding(crate::specs::LineText::separator_of))]
fn separator(i: usize, n: usize) -> u8
    ensures { result ≡ separator_of i n }
{
    if i < n { b',' } else { b'\n' }
}

// Copies w to the front of out, or nothing where out is too short; and how many bytes it wrote.
pub fn put_bytes(out: &mut [u8], w: &[u8]) -> Option<usize>
    ensures { PutIs w.now out.old out.new result }
{
    if out.len() < w.len() {
        return None;
    }
    out[..w.len()].copy_from_slice(w);
    Some(w.len())
}

// Writes the numbers, parted by commas and ended by a line feed, to the front of out, which has room for them.
fn fill_numbers(out: &mut [u8], numbers: &[u64]) -> usize
    requires { length (numbers_text numbers.now) ≤ length out.old }
    ensures value { result ≡ length (numbers_text numbers.now) }
    ensures out_after { out.new ≡ front (numbers_text numbers.now) out.old }
{
    let mut at = 0;
    for (i, v) in numbers.iter().enumerate() {
        at += fill_number(&mut out[at..], *v);
        out[at] = separator(i + 1, numbers.len());
        at += 1;
    }
    at
}

// How long the numbers of a line are as text, their line feed included: the first six of them.
pub fn numbers_width(numbers: &[u64]) -> usize
    ensures value { result ≡ length (numbers_text (take FIELDS numbers.now)) }
    ensures upper_bound { result ≤ 21 * length (take FIELDS numbers.now) }
{
    let mut n = 0;
    for v in &numbers[..FIELDS.min(numbers.len())] {
        n += width(*v) + 1;
    }
    n
}

// What room is left behind the numbers as text; or they are longer.
fn left_behind(numbers: &[u64], room: usize) -> Option<usize>
    ensures { result ≡ room_behind room (length (numbers_text numbers.now)) }
{
    let mut left = room;
    for v in numbers {
        left = left.checked_sub(width(*v) + 1)?;
    }
    Some(left)
}

// Writes a line to the front of out, which has room for it.
fn fill_line(out: &mut [u8], word: &[u8], numbers: &[u64]) -> usize
    requires { length (line_text word.now numbers.now) ≤ length out.old }
    ensures value { result ≡ length (line_text word.now numbers.now) }
    ensures out_after { out.new ≡ front (line_text word.now numbers.now) out.old }
{
    let at = word.len();
    out[..at].copy_from_slice(word);
    at + fill_numbers(&mut out[at..], numbers)
}

// Writes a line to the front of out, or nothing where out is too short; and how many bytes it wrote.
pub fn put_line(out: &mut [u8], word: &[u8], numbers: &[u64]) -> Option<usize>
    ensures { PutIs (line_text word.now numbers.now) out.old out.new result }
{
    let room = out.len().checked_sub(word.len())?;
    // with room for numbers of 21 bytes each, none is measured
    if room / WIDEST < numbers.len() {
        left_behind(numbers, room)?;
    }
    Some(fill_line(out, word, numbers))
}

// Writes a line to place `at` of out and gives the place behind it, or writes nothing and gives `at` where it does not fit.
// A place and no Option, as it promises (`AppendIs`); `put_line` gives the Option.
pub fn append_line(out: &mut [u8], at: usize, word: &[u8], numbers: &[u64]) -> usize
    ensures { AppendIs (line_text word.now numbers.now) at out.old out.new result }
{
    if out.len() < at {
        return at;
    }
    at + put_line(&mut out[at..], word, numbers).unwrap_or(0)
}
