// Rows 4, 6 and 7 of the audit, on a trace and a report that were read.
#![tactic(auto)]

mod reports;
mod traces;

pub use reports::{row_6, row_7};
pub use traces::row_4;
