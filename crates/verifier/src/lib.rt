// The audit: the first fault of programs, trace and report, in the order of the scope's table.
#![tactic(auto)]

mod audits;
mod orders;
mod printing;

pub use audits::{audit, audit_order};
pub use orders::Ordered;
pub use printing::{PRINTED, audit_text};
pub use text::TEXT_ROOM;

// What the audit finds: the number of the verdict with its line, and on acceptance how many `request` and how many `log` lines there are, the
// latter also in whole hundreds and what is left over. Numbers, as they are printed and handed to C.
#[derive(Clone, Copy)]
pub struct Audited {
    pub verdict: u64,
    pub line: u64,
    pub requests: u64,
    pub operations: u64,
    pub blocks: u64,
    pub rest: u64,
}
