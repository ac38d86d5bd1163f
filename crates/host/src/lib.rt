// The reference host: the run of a schedule, and the trace and the report that it writes.
#![tactic(auto)]

mod logs;
mod outputs;
mod printing;
mod records;
mod refusals;
mod requests;
mod runs;
mod steps;

pub use printing::{PRINTED, record_text};
pub use records::record;
pub use text::TEXT_ROOM;

// What the host comes to: the number of the verdict with its line, and how long the two texts are that it wrote, both 0 on a refusal. Numbers,
// as they are handed to C.
#[derive(Drop)]
pub struct Recorded {
    pub verdict: u64,
    pub line: u64,
    pub trace_len: usize,
    pub report_len: usize,
}
