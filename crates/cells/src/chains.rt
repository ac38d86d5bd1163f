// A cell of a chain, and the chain that a key is on.
ghost use Rattle.std.specs.Prelude.{◌≡◌};
ghost use Rattle.cells.specs.Rows.{is_of};
ghost use Rattle.cells.specs.Chains.{bucket_of};

use crate::limits::{KEY_BUCKETS, STORES};

// What a store holds at a key, and the place of the next cell on the chain. object and key stay two numbers, as `Contents` takes them.
#[derive(Clone, Copy, Debug, Default, PartialEq, Eq)]
pub struct Cell {
    pub object: u64,
    pub key: u64,
    pub value: u64,
    pub link: usize,
}

impl Cell {
    pub(crate) fn is_of(&self, object: u64, key: u64) -> bool
        ensures { result ≡ is_of self.now object key }
    {
        self.object == object && self.key == key
    }
}

pub(crate) fn bucket(object: u64, key: u64) -> usize
    ensures { result ≡ bucket_of object key }
{
    (key % KEY_BUCKETS * STORES + object % STORES) as usize
}
