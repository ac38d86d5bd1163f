// Records written one behind the other, each as a line.
ghost use Rattle.std.specs.Prelude.{◌≡◌, ℕ, ◌*◌, ◌≤◌, List, length};
ghost use Rattle.lines.specs.Put.{front, PutIs};
ghost use Rattle.text.specs.Held.{most_items};
ghost use Rattle.text.specs.Written.{lines_text};

// A record that is written as a line.
pub(crate) trait Line {
    // The line as bytes, and how many it takes at most.
    ghost text: { Self → List ℕ };

    ghost most: { ℕ };

    // How long the line is.
    fn width(&self) -> usize
        ensures value { result ≡ length (text self.now) }
        ensures upper_bound { result ≤ most };

    // Writes it to the front of out, or nothing where out is too short.
    fn put(&self, out: &mut [u8]) -> Option<usize>
        ensures { PutIs (text self.now) out.old out.new result };

    // No word is longer than nine bytes, and six numbers take at most 126.
    ghost short: { most ≤ 135 };
}

// How long the lines of the records are, ITEMS at most.
pub(crate) fn widths<L: Line>(records: &[L]) -> usize
    requires { length records.now ≤ most_items }
    ensures value { result ≡ length (lines_text L.text records.now) }
    ensures upper_bound { result ≤ L.most * length records.now }
{
    let mut at = 0;
    for x in records {
        at += x.width();
    }
    at
}

// Writes them to the front of out, which has room for them.
pub(crate) fn fill<L: Line>(out: &mut [u8], records: &[L]) -> usize
    requires { length (lines_text L.text records.now) ≤ length out.old }
    ensures value { result ≡ length (lines_text L.text records.now) }
    ensures out_after { out.new ≡ front (lines_text L.text records.now) out.old }
{
    let mut at = 0;
    for x in records {
        at += x.put(&mut out[at..]).unwrap_or(0);
    }
    at
}

// Writes them to the front of out, or nothing where out is too short.
pub(crate) fn put_lines<L: Line>(out: &mut [u8], records: &[L]) -> Option<usize>
    requires { length records.now ≤ most_items }
    ensures { PutIs (lines_text L.text records.now) out.old out.new result }
{
    if out.len() < widths(records) {
        return None;
    }
    Some(fill(out, records))
}
