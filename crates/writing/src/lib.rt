// A trace and a report from their records, the verdict with its line, and an order, written to the front of a lent buffer.
#![tactic(auto)]

mod orders;
mod records;
mod reports;
mod traces;
mod verdicts;

pub use orders::{order_width, put_order};
pub use reports::{put_report, report_width};
pub use traces::{put_trace, trace_width};
pub use verdicts::{put_verdict, verdict_width};
