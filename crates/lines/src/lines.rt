// A line at a place of a text: its word, and its numbers in their ranges.
ghost use Rattle.std.specs.Prelude.{◌≡◌};
ghost use Rattle.lines.specs.Place.{fields_at, format_of, line_at, found_in};
ghost use Rattle.lines.specs.Steps.{comma_at};

use crate::numbers::number_at;

// Whether a comma stands at e.
#[tactic(auto, unfolding(crate::specs::Steps::comma_at))]
fn comma(s: &[u8], e: usize) -> bool
    ensures { result ≡ comma_at s.now e }
{
    e < s.len() && s[e] == b','
}

// The fields from at on to the line's end, each up to its number in most; and where the line ends, its line feed or the end of the text.
fn fields_at<const N: usize>(s: &[u8], at: usize, most: &[u64; N]) -> Option<([u64; N], usize)>
    ensures { found_in result ≡ fields_at most.now s.now at }
{
    let mut numbers = [0; N];
    let mut p = at;
    // i is a place in both arrays.
    for i in 0..N {
        let (x, e) = number_at(s, p)?;
        if most[i] < x {
            return None;
        }
        numbers[i] = x;
        if !comma(s, e) {
            return (i + 1 == N).then_some((numbers, e));
        }
        p = e + 1;
    }
    None
}

// The line from at on with this word and as many fields as `most` has numbers, each up to its own there: the fields and where the line ends.
// It is put into each caller, whose word and ranges are constants: reading a schedule takes half the time so.
#[inline(always)]
pub fn line_at<const N: usize>(
    s: &[u8],
    at: usize,
    word: &[u8],
    most: &[u64; N],
) -> Option<([u64; N], usize)>
    ensures { found_in result ≡ line_at (format_of word.now most.now) s.now at }
{
    if !s.get(at..)?.starts_with(word) {
        return None;
    }
    fields_at(s, at + word.len(), most)
}
