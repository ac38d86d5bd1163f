// The four texts: programs, trace, report and schedule, read whole.
#![tactic(auto)]

mod codes;
mod limits;
mod programs;
mod reading;
mod report;
mod schedule;
mod slots;
mod trace;

pub use codes::{
    ADD, CODES, CONSTANT, GET, HAS, JUMP, LESS, PUT, READ, REPLY, SUBTRACT, WRITE, is_operation,
};
pub use limits::{
    ENTRIES, EVENTS, INSTRUCTIONS, ITEM_ROW, ITEM_ROWS, ITEMS, MOVES, OBJECTS, OFS, POSITIONS,
    PROGRAM_NUMBERS, PROGRAMS, REQUESTS, RIDS, TEXT_BYTES, TEXT_ROOM,
};
pub use programs::{Instr, Program, Programs, read_programs};
pub use reading::BadLine;
pub use report::{Entry, Log, Of, Ofs, Op, read_report};
pub use schedule::{Move, Schedule, read_schedule};
pub use slots::{SLOT_BUCKETS, Slots};
pub use trace::{Event, Trace, read_trace};
