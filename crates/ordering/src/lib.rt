// The merge of items that stand in two queues each, a lane (0 the trace, 1 + o the log of object o) and a request: an item is taken when it
// is the first of its lane and next in its request, the smallest position first. Log lines stand in report order before the trace events.
#![tactic(auto)]

ghost use Rattle.std.specs.Prelude.{◌≡◌};
ghost use Rattle.ordering.specs.Positions.{order_in, counts_of};
ghost use Rattle.ordering.specs.Heads.{link_of, least_of, Inside};

// The lanes: the trace and each object.
const LANES: usize = 17;

// The most items of a merge, and the most requests that they are of.
const MERGED_ITEMS: usize = 1152;

const MERGED_REQUESTS: usize = 64;

// Stands at the end of a lane. Positions are kept in 16 bits by `as`, since no From narrows; the check proves that they fit.
const NO_ITEM: u16 = MERGED_ITEMS as u16;

// Nothing is allocated, so a lane is led by indices.
// The first item of each lane, and the next of its lane after each item: one pass from the back.
#[tactic(auto, using(crate::proofs::Links::link_back), unfolding(crate::specs::Heads::link_of))]
fn link(lane: &[u8], n: usize, head: &mut [u16; LANES], after: &mut [u16; MERGED_ITEMS])
    ensures heads { head.new ≡ (link_of lane.now n head.old after.old).0 }
    ensures afters { after.new ≡ (link_of lane.now n head.old after.old).1 }
{
    // i is what is kept.
    for i in (0..n.min(lane.len()).min(MERGED_ITEMS)).rev() {
        let l = usize::from(lane[i]) % LANES;
        after[i] = head[l];
        head[l] = i as u16;
    }
}

// A lane and its head.
#[derive(Clone, Copy, Debug, PartialEq, Eq)]
struct Front {
    lane: usize,
    item: usize,
}

// The smallest head of those that are next in their request. A head from `limit` on is not asked whether it is next.
#[tactic(auto, using(crate::proofs::Search::searching))]
fn least(
    request: &[u8],
    number: &[u16],
    stage: &[u16; MERGED_REQUESTS],
    head: &[u16; LANES],
    n: usize,
) -> Option<Front>
    ensures smallest { result ≡ least_of request.now number.now stage.now head.now n }
    ensures inside { Inside n result }
{
    let mut limit = n.min(request.len()).min(number.len());
    let mut found = None;
    for (lane, first) in head.iter().enumerate() {
        let item = usize::from(*first);
        if item < limit {
            let r = usize::from(request[item]) % MERGED_REQUESTS;
            if number[item] == stage[r] {
                limit = item;
                found = Some(Front { lane, item });
            }
        }
    }
    found
}

// How many items are taken, and how many are left.
#[derive(Clone, Copy, Debug, PartialEq, Eq)]
pub struct Merged {
    pub taken: usize,
    pub left: usize,
}

// The order, written over the front of `out` as positions. The items are as many as the shortest slice has, and no more than MERGED_ITEMS.
// Three slices and not one of structs, and counts beside `out` and not a part of it: its two clauses speak of arrays and of both counts.
#[tactic(auto, using(crate::proofs::Merging::merging_taken))]
pub fn merge(lane: &[u8], request: &[u8], number: &[u16], out: &mut [u16]) -> Merged
    ensures order { out.new ≡ order_in lane.now request.now number.now out.old }
    ensures counted { result ≡ counts_of lane.now request.now number.now out.old }
{
    let n = lane
        .len()
        .min(request.len())
        .min(number.len())
        .min(out.len())
        .min(MERGED_ITEMS);
    let mut head = [NO_ITEM; LANES];
    let mut after = [0u16; MERGED_ITEMS];
    link(lane, n, &mut head, &mut after);
    let mut stage = [0u16; MERGED_REQUESTS];
    for k in 0..n {
        let Some(f) = least(request, number, &stage, &head, n) else {
            return Merged {
                taken: k,
                left: n - k,
            };
        };
        let r = usize::from(request[f.item]) % MERGED_REQUESTS;
        out[k] = f.item as u16;
        head[f.lane] = after[f.item];
        stage[r] += 1;
    }
    Merged { taken: n, left: 0 }
}
