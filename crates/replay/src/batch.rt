// A batch as it was read, and what is wrong with it.
use text::{Log, Ofs, Trace};

// A trace, and the `of` and `log` lines of its report.
#[derive(Clone, Copy)]
pub struct Batch<'a> {
    pub events: &'a Trace,
    pub ofs: &'a Ofs,
    pub log: &'a Log,
}

// A row of the table, and the line that breaks it; line 0 for row 9, which no single line breaks. Numbers, as they are printed and handed to C.
#[derive(Clone, Copy, Debug, PartialEq, Eq)]
pub struct Fault {
    pub row: u64,
    pub line: u64,
}
