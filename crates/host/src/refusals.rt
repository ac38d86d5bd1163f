// What the host refuses.
ghost use Rattle.std.specs.Prelude.{◌≡◌};
ghost use Rattle.host.specs.Steps.{number_of, line_of};

use text::BadLine;

// A row that does not hold.
#[derive(Clone, Copy)]
pub enum Refusal {
    // 1: the programs are unreadable.
    Programs(BadLine),
    // 2: they break a rule.
    Rules(BadLine),
    // 13: the schedule is unreadable.
    Schedule(BadLine),
    // 14: a line of it cannot be carried out.
    Run(BadLine),
    // 16: a lent buffer is too short for its text.
    Short,
}

impl Refusal {
    // The number of the row, and the line where it does not hold, as both are printed and handed to C.
    pub(crate) fn numbers(self) -> (u64, usize)
        ensures number { result.0 ≡ number_of self }
        ensures line { result.1 ≡ line_of self }
    {
        match self {
            Refusal::Programs(e) => (1, e.line),
            Refusal::Rules(e) => (2, e.line),
            Refusal::Schedule(e) => (13, e.line),
            Refusal::Run(e) => (14, e.line),
            Refusal::Short => (16, 0),
        }
    }
}
