// What the stores hold at a key: looked up, and put. Neither asks for anything: each says what it does to stores that hold some contents.
ghost use Rattle.std.specs.Prelude.{◌≡◌, ◌<◌, IfSome};
ghost use Rattle.cells.specs.Rows.{most_cells};
ghost use Rattle.cells.specs.Chains.{walk, cell_of};
ghost use Rattle.cells.specs.Stores.{Contents, Holds, Puts, head_of, no_stores};

use crate::chains::{Cell, bucket};
use crate::limits::{BUCKETS, CELLS};

// The first `used` cells, and the place of the newest cell of each bucket. The cells are an array and no `ArrayVec`, so that each link, whatever
// it is, leads to a cell, and no step of a walk has to ask how many are used.
#[derive(Drop)]
pub struct Stores {
    pub cells: [Cell; CELLS],
    pub heads: [u16; BUCKETS],
    pub used: usize,
}

impl Stores {
    pub fn new() -> Stores
        ensures { result ≡ no_stores }
    {
        // Its default, written out: over the derived one the proof that this is `no_stores` did not close.
        let blank = Cell {
            object: 0,
            key: 0,
            value: 0,
            link: 0,
        };
        Stores {
            cells: [blank; CELLS],
            heads: [0; BUCKETS],
            used: 0,
        }
    }

    // The cell of a key, on the chain of its bucket. No chain has more than CELLS cells.
    fn find(&self, object: u64, key: u64) -> Option<usize>
        ensures walked { result ≡ cell_of (walk self.now.cells object key most_cells (head_of self.now object key)) }
        ensures within { IfSome result (λ i. i < most_cells) }
    {
        let mut place = usize::from(self.heads[bucket(object, key)]);
        for _ in 0..CELLS {
            if place == 0 {
                return None;
            }
            let i = (place - 1) % CELLS;
            if self.cells[i].is_of(object, key) {
                return Some(i);
            }
            place = self.cells[i].link;
        }
        None
    }

    // What a store holds at a key.
    pub fn look(&self, object: u64, key: u64) -> Option<u64>
        ensures { (c : Contents) → Holds self.now c → result ≡ c object key }
    {
        let i = self.find(object, key)?;
        Some(self.cells[i].value)
    }

    // A put of a new key adds a cell, where there is room for one; a put of a held key changes its cell.
    pub fn put(&mut self, object: u64, key: u64, value: u64)
        ensures { Puts self.old object key value self.new }
    {
        if let Some(i) = self.find(object, key) {
            self.cells[i].value = value;
            return;
        }
        if CELLS <= self.used {
            return;
        }
        let b = bucket(object, key);
        self.cells[self.used] = Cell {
            object,
            key,
            value,
            link: usize::from(self.heads[b]),
        };
        self.used += 1;
        self.heads[b] = self.used as u16;
    }
}
