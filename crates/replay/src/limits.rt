// The arrays of the replay. What is kept in 8 or 16 bits and what becomes an index or a line number is cast: no From narrows, and u64 and usize
// have none for one another.
use text::ENTRIES;

// The buckets of log lines by request and number.
pub const CLAIM_REMAINDERS: u64 = 1024;

pub const CLAIM_BUCKETS: usize = CLAIM_REMAINDERS as usize;

// Stands at the end of a chain of log lines: 16 bits for each line, where an Option takes 32.
pub const NO_LINE: u16 = ENTRIES as u16;
