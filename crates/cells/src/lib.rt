// The stores' contents, held in arrays of fixed size, since nothing is allocated. Each key that a store holds has one cell. A chain for each
// bucket of keys leads from its head through its cells, the newest first. Cells on a chain count from 1, and 0 ends it, as the definition of a
// walk has it (`walk`).
#![tactic(auto)]

mod chains;
mod limits;
mod stores;

pub use chains::Cell;
pub use limits::{BUCKETS, CELLS};
pub use stores::Stores;
