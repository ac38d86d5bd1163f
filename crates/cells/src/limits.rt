// How many cells there is room for, and how many buckets they fall into. A bucket and the count of cells change their type by `as`: both fit,
// and `try_from` would add an `Err` that never comes.

pub const CELLS: usize = 2048;

// The buckets of one store's keys, and how many stores there are.
pub const KEY_BUCKETS: u64 = 127;

pub const STORES: u64 = 8;

pub const BUCKETS: usize = (KEY_BUCKETS * STORES) as usize;
