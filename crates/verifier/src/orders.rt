// The order of an accepted batch in numbers, two for each item, as the C interface's slice has them.
ghost use Rattle.std.specs.Prelude.{◌≡◌, List, ◌*◌, ◌≤◌, length};
ghost use Rattle.lines.specs.Put.{front, PutIs};
ghost use Rattle.model.specs.PlainRun.{Item};
ghost use Rattle.verifier.specs.Order.{order_numbers};
ghost use Rattle.replay.specs.Held.{batch_held};
ghost use Rattle.verifier.specs.Steps.{items_in, OrderIs};

use crate::Audited;
use replay::{Batch, order_items};
use text::ITEMS;

// What the audit finds, and how many numbers were written of the order, two for each item; none where there was no room for them.
#[derive(Drop)]
pub struct Ordered {
    pub audited: Audited,
    pub order: Option<usize>,
}

// The items of a batch at places, which are log lines before events, to the front of out, which has room for them. The events come in the
// trace's order, so that each has the next line.
fn fill_items(batch: Batch, order: &[u16], out: &mut [u64])
    requires { 2 * length order.now ≤ length out.old }
    ensures { out.new ≡ front (order_numbers 1 (items_in (batch_held batch.entry) order.now)) out.old }
{
    let mut line: u64 = 0;
    // An item takes two numbers of out, so i is a place in both.
    for (i, place) in order.iter().enumerate() {
        match batch.log.get(usize::from(*place)) {
            Some(x) => {
                out[2 * i] = x.rid;
                out[2 * i + 1] = x.num;
            }
            None => {
                line += 1;
                out[2 * i] = line;
                out[2 * i + 1] = 0;
            }
        }
    }
}

// The order of an accepted batch in numbers to the front of out, or nothing where out is too short. Then none is made, nor one of no items,
// so that an audit which lends no room spends nothing on it.
pub(crate) fn put_numbers(batch: Batch, out: &mut [u64]) -> Option<usize>
    ensures { (items : List Item) → OrderIs (batch_held batch.entry) items →
        PutIs (order_numbers 1 items) out.old out.new result }
{
    let items = batch.log.len() + batch.events.len();
    if items == 0 {
        return Some(0);
    }
    if out.len() < 2 * items {
        return None;
    }
    let mut order = [0u16; ITEMS];
    order_items(batch, &mut order);
    fill_items(batch, &order[..items], out);
    Some(2 * items)
}
