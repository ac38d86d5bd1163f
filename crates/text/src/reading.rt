// Reading a text, whatever its kinds of line.
ghost use Rattle.std.specs.Prelude.{◌≡◌, ℕ, ◌+◌, ◌≤◌, List, IfOk};
ghost use Rattle.std.proofs.Math.Option.{Option as Added};
ghost use Rattle.lines.specs.Place.{line};
ghost use Rattle.text.specs.Formats.{most_bytes};
ghost use Rattle.text.specs.Text.{Kind, read_text};
ghost use Rattle.text.specs.Held.{read_in};
ghost use Rattle.text.specs.Steps.{LineIs, AddIs};

use crate::limits::TEXT_BYTES;

// The first line of a text that is unreadable, 0 for an overlong text, or that breaks a row of those who read it.
#[derive(Clone, Copy, Debug, PartialEq, Eq)]
pub struct BadLine {
    pub line: usize,
}

// A line of a text. It joins what was read of the text, which is held in two places.
pub(crate) trait Line: Copy {
    type Held;

    type Beside;

    // What reading the text gives, as its specification says it: the text's kinds of line, what no line gives, what a line adds, and
    // how many bytes a line has at least.
    ghost read: { Type 0 };

    ghost kinds: { List (Kind read) };

    ghost nothing: { read };

    ghost adds: { Self → read → Added read };

    ghost least: { ℕ };

    // What the two places hold, and what is known of them behind so many bytes of the text.
    ghost held: { Self.Held → Self.Beside → read };

    ghost kept: { Self.Held → Self.Beside → ℕ → Type 0 };

    // The line from at on, and where it ends.
    fn line_at(s: &[u8], at: usize) -> Option<(Self, usize)>
        ensures { LineIs kinds adds least s.now at result };

    // The line joins what was read, or may not stand behind it. A bool says which: there is one refusal, of which the caller makes its error.
    fn join(self, into: &mut Self::Held, beside: &mut Self::Beside) -> bool
        ensures { (at end : ℕ) → kept into.old beside.old at → at + least ≤ end → end ≤ most_bytes →
            AddIs (adds self (held into.old beside.old)) (held into.new beside.new) (kept into.new beside.new end) result };
}

// Reads a text line by line.
pub(crate) fn read_lines<L: Line>(
    s: &[u8],
    into: &mut L::Held,
    beside: &mut L::Beside,
) -> Result<(), BadLine>
    requires nothing { L.held into.old beside.old ≡ L.nothing }
    requires kept { L.kept into.old beside.old 0 }
    ensures read { read_in result (L.held into.new beside.new) ≡ read_text L.kinds L.nothing s.now }
    ensures kept { IfOk result (λ _. (at : ℕ) × L.kept into.new beside.new at) }
{
    if TEXT_BYTES < s.len() {
        return Err(BadLine { line: 0 });
    }
    let mut line = 1;
    let mut at = 0;
    // Each line says where the next begins.
    while at < s.len() {
        let Some((x, end)) = L::line_at(s, at) else {
            return Err(BadLine { line });
        };
        if s.len() <= end || !x.join(into, beside) {
            return Err(BadLine { line });
        }
        line += 1;
        at = end + 1;
    }
    Ok(())
}
