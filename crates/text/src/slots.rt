// The `of` line of a rid, which is its request's slot. A search begins at the first line of the rid's bucket, so that it seldom looks at a
// second line.
ghost use Rattle.std.specs.Prelude.{◌≡◌, ◌≤◌, length, eqb, get_or};
ghost use Rattle.basics.specs.Scans.{FirstFrom};
ghost use Rattle.text.specs.Held.{of_at};
ghost use Rattle.text.specs.Slots.{slot_bucket, Slots as FirstSlots};

use crate::limits::OFS;
use crate::report::{Of, Ofs};

// Rids fall into so many buckets, by their remainder.
pub const SLOT_BUCKETS: usize = 256;

// Stands where a bucket has no line: a byte for each bucket, where an Option takes two. (No From narrows to a byte, and usize has none for u64.)
const NO_SLOT: u8 = OFS as u8;

// The first `of` line in each bucket of rids, NO_SLOT where there is none.
#[derive(Clone, Copy)]
pub struct Slots {
    pub heads: [u8; SLOT_BUCKETS],
}

fn bucket(rid: u64) -> usize
    ensures { result ≡ slot_bucket rid }
{
    rid as usize % SLOT_BUCKETS
}

impl Slots {
    // One pass from the back.
    pub fn of(ofs: &Ofs) -> Slots
        ensures { FirstSlots ofs.now.items result.heads }
    {
        let mut heads = [NO_SLOT; SLOT_BUCKETS];
        // i is what is kept.
        for i in (0..ofs.len()).rev() {
            heads[bucket(ofs[i].rid)] = i as u8;
        }
        Slots { heads }
    }

    // The `of` line of a rid, from the head of its bucket on; or the number of lines, a number and no Option, as clause `within` has it.
    // It promises this of any lines and heads, so the lines are lent to it and no invariant binds them to the heads.
    pub fn slot_of(&self, ofs: &[Of], rid: u64) -> usize
        ensures within { result ≤ length ofs.now }
        ensures first { FirstFrom (λ i. eqb (of_at ofs.now i).rid rid) (get_or self.now.heads (slot_bucket rid) 0) (length ofs.now) result }
    {
        let head = usize::from(self.heads[bucket(rid)]);
        // The head may lie behind the lines, where no slice begins.
        for i in head..ofs.len() {
            if ofs[i].rid == rid {
                return i;
            }
        }
        ofs.len()
    }
}
