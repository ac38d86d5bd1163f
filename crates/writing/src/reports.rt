// Writing a report: how long it is, and its lines to the front of a lent buffer.
ghost use Rattle.std.specs.Prelude.{◌≡◌, length};
ghost use Rattle.lines.specs.Put.{PutIs};
ghost use Rattle.text.specs.Held.{report_of};
ghost use Rattle.text.specs.Written.{report_text};

use crate::records::{Line, fill, widths};
use lines::{numbers_width, put_line};
use text::{Entry, Log, Of, Ofs};

impl Line for Of {
    ghost use Rattle.std.proofs.Common.{lit≤};
    ghost use Rattle.text.specs.Written.{of_text};

    ghost text = { of_text };

    ghost most = { 129 };

    ghost short = { lit≤ tt };

    #[tactic(auto, using(crate::proofs::LineLists::line_lengths), unfolding(text::specs::Written::of_text))]
    fn width(&self) -> usize {
        3 + numbers_width(&[self.rid, self.group, self.count])
    }

    #[tactic(auto, unfolding(text::specs::Written::of_text))]
    fn put(&self, out: &mut [u8]) -> Option<usize> {
        put_line(out, b"of=", &[self.rid, self.group, self.count])
    }
}

impl Line for Entry {
    ghost use Rattle.std.proofs.Common.{lit≤};
    ghost use Rattle.text.specs.Written.{entry_text};

    ghost text = { entry_text };

    ghost most = { 130 };

    ghost short = { lit≤ tt };

    #[tactic(auto, using(crate::proofs::LineLists::line_lengths), unfolding(text::specs::Written::entry_text))]
    fn width(&self) -> usize {
        let x = self.op;
        4 + numbers_width(&[x.object, self.rid, self.num, x.kind, x.key, x.value])
    }

    #[tactic(auto, unfolding(text::specs::Written::entry_text))]
    fn put(&self, out: &mut [u8]) -> Option<usize> {
        let x = self.op;
        let numbers = [x.object, self.rid, self.num, x.kind, x.key, x.value];
        put_line(out, b"log=", &numbers)
    }
}

// How long the `of` and the `log` lines are as a text.
#[tactic(auto, unfolding(text::specs::Written::report_text))]
pub fn report_width(ofs: &Ofs, log: &Log) -> usize
    ensures { result ≡ length (report_text (report_of ofs.now.items log.now.items)) }
{
    widths(ofs.as_slice()) + widths(log.as_slice())
}

// Writes them to the front of out, or nothing where out is too short.
pub fn put_report(out: &mut [u8], ofs: &Ofs, log: &Log) -> Option<usize>
    ensures { PutIs (report_text (report_of ofs.now.items log.now.items)) out.old out.new result }
{
    if out.len() < report_width(ofs, log) {
        return None;
    }
    let at = fill(out, ofs.as_slice());
    Some(at + fill(&mut out[at..], log.as_slice()))
}
