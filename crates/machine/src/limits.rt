// How many locals a request has, and how many of the objects are registers. A number of 64 bits becomes an index by `as`, behind a `%` or a
// test: `try_from` would add an `Err` that never comes.

pub const LOCALS: usize = 8;

// Locals are numbered below this.
pub const LOCAL_NUMBERS: u64 = LOCALS as u64;

// Stands for the local of an answer where an operation takes none.
pub const NO_LOCAL: u64 = LOCAL_NUMBERS;

// Objects below this are registers, the others are stores.
pub const FIRST_STORE: u64 = 8;

pub const REGISTERS: usize = FIRST_STORE as usize;
