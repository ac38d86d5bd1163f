// The report: `of` lines, then `log` lines.
ghost use Rattle.std.specs.Prelude.{◌≡◌};
ghost use Rattle.lines.specs.Place.{line_at};
ghost use Rattle.text.specs.Formats.{of_line, log_line};
ghost use Rattle.text.specs.Held.{read_in, report_of};
ghost use Rattle.text.specs.Steps.{line_by, log_from, group_from};
ghost use Rattle.text.specs.Report.{read_report};

use crate::codes::is_operation;
use crate::limits::{
    ENTRIES, MOST_GROUP, MOST_NUMBER, MOST_OBJECT, MOST_OPERATIONS, MOST_RID, OFS,
};
use crate::reading::{BadLine, Line, read_lines};
use arrayvec::ArrayVec;
use lines::line_at;

// of=rid,group,count
#[derive(Clone, Copy, Debug, Default, PartialEq, Eq)]
pub struct Of {
    pub rid: u64,
    pub group: u64,
    pub count: u64,
}

// What a log line says was done: the object, the code as kind, the key and the value.
#[derive(Clone, Copy, Debug, Default, PartialEq, Eq)]
pub struct Op {
    pub object: u64,
    pub kind: u64,
    pub key: u64,
    pub value: u64,
}

// log=object,rid,num,kind,key,value
// rid and num stay two numbers, as the definition of a claim takes them (`claims`).
#[derive(Clone, Copy, Debug, Default, PartialEq, Eq)]
pub struct Entry {
    pub rid: u64,
    pub num: u64,
    pub op: Op,
}

// Most of what reads a report needs one of the two, so they are lent apart.
pub type Ofs = ArrayVec<Of, OFS>;

pub type Log = ArrayVec<Entry, ENTRIES>;

#[derive(Clone, Copy)]
pub(crate) enum ReportLine {
    Group(Of),
    Log(Entry),
}

#[tactic(auto, unfolding(lines::specs::Place::found_in))]
fn log_at(s: &[u8], at: usize) -> Option<(ReportLine, usize)>
    ensures { result ≡ line_by log_from (line_at log_line s.now at) }
{
    let max = MOST_NUMBER;
    let most = [MOST_OBJECT, MOST_RID, MOST_OPERATIONS, max, max, max];
    let (v, end) = line_at(s, at, b"log=", &most)?;
    let [object, rid, num, kind, key, value] = v;
    let op = Op {
        object,
        kind,
        key,
        value,
    };
    Some((ReportLine::Log(Entry { rid, num, op }), end))
}

#[tactic(auto, unfolding(lines::specs::Place::found_in))]
fn of_at(s: &[u8], at: usize) -> Option<(ReportLine, usize)>
    ensures { result ≡ line_by group_from (line_at of_line s.now at) }
{
    let (v, end) = line_at(s, at, b"of=", &[MOST_RID, MOST_GROUP, MOST_OPERATIONS])?;
    let [rid, group, count] = v;
    Some((ReportLine::Group(Of { rid, group, count }), end))
}

impl Line for ReportLine {
    type Held = Ofs;

    type Beside = Log;

    ghost use Rattle.text.specs.Report.{Report, no_lines, report_kinds};
    ghost use Rattle.text.specs.Held.{report_of};
    ghost use Rattle.text.specs.Steps.{report_adds};
    ghost use Rattle.std.specs.Prelude.{⊤};

    ghost read = { Report };

    ghost kinds = { report_kinds };

    ghost nothing = { no_lines };

    ghost adds = { report_adds };

    ghost least = { 0 };

    ghost held = { λ ofs log. report_of ofs.items log.items };

    ghost kept = { λ _ _ _. ⊤ };

    // Most are `log` lines, which are tried first.
    fn line_at(s: &[u8], at: usize) -> Option<(Self, usize)> {
        log_at(s, at).or_else(|| of_at(s, at))
    }

    fn join(self, ofs: &mut Ofs, log: &mut Log) -> bool {
        match self {
            ReportLine::Group(x) => log.is_empty() && ofs.try_push(x).is_ok(),
            ReportLine::Log(x) => is_operation(x.op.kind) && log.try_push(x).is_ok(),
        }
    }
}

// Reads a report into ofs and log.
#[tactic(auto, unfolding(crate::specs::Report::read_report))]
pub fn read_report(s: &[u8], ofs: &mut Ofs, log: &mut Log) -> Result<(), BadLine>
    ensures { read_in result (report_of ofs.new.items log.new.items) ≡ read_report s.now }
{
    ofs.clear();
    log.clear();
    read_lines::<ReportLine>(s, ofs, log)
}
