// The limits of the four texts. u64 and usize have no From for one another, so a limit in both is cast.

// The most bytes of a text, and room for one more, so that a longer text is seen as such.
pub const TEXT_BYTES: usize = 65535;

pub const TEXT_ROOM: usize = TEXT_BYTES + 1;

// The range of a field with no other range named.
pub const MOST_NUMBER: u64 = u64::MAX;

// Request ids are below this.
pub const RIDS: u64 = 65536;

pub const MOST_RID: u64 = RIDS - 1;

// The most programs, whose numbers are below as much.
pub const PROGRAMS: usize = 16;

pub const PROGRAM_NUMBERS: u64 = PROGRAMS as u64;

// The most instructions of a program, whose positions are below as much.
pub const INSTRUCTIONS: usize = 64;

pub const POSITIONS: u64 = INSTRUCTIONS as u64;

// The most requests and responses of a trace.
pub const REQUESTS: usize = 64;

pub const RESPONSES: usize = 64;

pub const EVENTS: usize = REQUESTS + RESPONSES;

// The most `of` lines of a report.
pub const OFS: usize = 64;

// The largest group of an `of` line.
pub const MOST_GROUP: u64 = 63;

// The largest count of an `of` line and the largest number of an operation.
pub const MOST_OPERATIONS: u64 = 256;

// Objects are below this.
pub const OBJECTS: u64 = 16;

pub const MOST_OBJECT: u64 = OBJECTS - 1;

// The most `log` lines of a report.
pub const ENTRIES: usize = 1024;

// The most arrivals of a schedule.
pub const ARRIVALS: usize = 64;

// The most lines of a schedule: no line is shorter than the seven bytes of `turn=0`.
pub const MOVES: usize = TEXT_BYTES / 7;

// The most items of an order: each log line and each event. The C interface holds an item as a row of two numbers.
pub const ITEMS: usize = ENTRIES + EVENTS;

pub const ITEM_ROW: usize = 2;

pub const ITEM_ROWS: usize = ITEMS * ITEM_ROW;
