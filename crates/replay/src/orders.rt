// Row 9: the items of a batch for the merge, log lines first and then trace events, their order, and whether the merge leaves something.
ghost use Rattle.std.specs.Prelude.{◌≡◌, ◌+◌, ◌<◌, length};
ghost use Rattle.text.specs.Slots.{Slots as FirstSlots};
ghost use Rattle.model.specs.Batch.{ev, ln};
ghost use Rattle.replay.specs.Held.{batch_held, node_at};
ghost use Rattle.replay.specs.Judges.{Orders};
ghost use Rattle.replay.specs.Promises.{ItemIs, ItemsTo, Returns};

use crate::batch::Batch;
use text::{Entry, Event, ITEMS, OBJECTS, Ofs, Slots};

// An item's lane (0 the trace, 1 + object), the slot of its request, and its number there: each cast is to a narrower type, which has no From.
#[derive(Clone, Copy)]
pub(crate) struct Item {
    pub lane: u8,
    pub request: u8,
    pub number: u16,
}

// The items as the merge takes them: three slices, so these are three arrays and none of items.
#[derive(Drop)]
pub(crate) struct Items {
    pub lane: [u8; ITEMS],
    pub request: [u8; ITEMS],
    pub number: [u16; ITEMS],
}

fn line_item(ofs: &Ofs, slots: &Slots, x: Entry) -> Item
    requires { FirstSlots ofs.now.items slots.now.heads }
    ensures { ItemIs ofs.now.items (ln x) result }
{
    Item {
        lane: (x.op.object % OBJECTS + 1) as u8,
        request: slots.slot_of(ofs, x.rid) as u8,
        number: (x.num % 65536) as u16,
    }
}

fn event_item(ofs: &Ofs, slots: &Slots, x: Event) -> Item
    requires { FirstSlots ofs.now.items slots.now.heads }
    ensures { ItemIs ofs.now.items (ev x) result }
{
    match x {
        Event::Request { rid, .. } => Item {
            lane: 0,
            request: slots.slot_of(ofs, rid) as u8,
            number: 0,
        },
        Event::Response { rid, .. } => {
            let s = slots.slot_of(ofs, rid);
            let count = ofs.get(s).map_or(0, |of| of.count);
            Item {
                lane: 0,
                request: s as u8,
                number: (count % 65535 + 1) as u16,
            }
        }
    }
}

// Item i: log line i, or an event.
fn item_at(batch: Batch, slots: &Slots, i: usize) -> Item
    requires slots { FirstSlots batch.ofs.now.items slots.now.heads }
    requires within { i < length batch.log.now.items + length batch.events.now.items }
    ensures { ItemIs (batch_held batch.entry).ofs (node_at (batch_held batch.entry) i) result }
{
    match batch.log.get(i) {
        Some(line) => line_item(batch.ofs, slots, *line),
        None => event_item(batch.ofs, slots, batch.events[i - batch.log.len()]),
    }
}

// The items, to the front of the arrays.
fn put_items(batch: Batch, items: &mut Items)
    ensures { ItemsTo (batch_held batch.entry) (length (batch_held batch.entry).log + length (batch_held batch.entry).trace) items.new }
{
    let slots = Slots::of(batch.ofs);
    // i goes through log lines and events, and is a place in the three arrays.
    for i in 0..batch.log.len() + batch.events.len() {
        let x = item_at(batch, &slots, i);
        items.lane[i] = x.lane;
        items.request[i] = x.request;
        items.number[i] = x.number;
    }
}

// The order of the items, as places, to the front of `order`, and whether it returns to itself: the merge leaves something over.
pub(crate) fn put_order(batch: Batch, order: &mut [u16; ITEMS]) -> bool
    ensures returns { Returns (batch_held batch.entry) result }
    ensures order { Orders (batch_held batch.entry) order.new }
{
    let mut items = Items {
        lane: [0; ITEMS],
        request: [0; ITEMS],
        number: [0; ITEMS],
    };
    put_items(batch, &mut items);
    let count = batch.log.len() + batch.events.len();
    let merged = ordering::merge(&items.lane[..count], &items.request, &items.number, order);
    merged.left != 0
}
