// Writing an order, which stands in an array as two numbers for each item, with their count beside it: the C interface's slice is filled so.
ghost use Rattle.std.specs.Prelude.{◌≡◌, ◌≤◌, min, ◌*◌, length};
ghost use Rattle.lines.specs.Put.{PutIs};
ghost use Rattle.text.specs.Held.{most_items};
ghost use Rattle.writing.specs.Order.{items_text, rows};

use crate::records::{Line, put_lines, widths};
use lines::{numbers_width, put_line};
use text::{ITEM_ROW, ITEM_ROWS, ITEMS};

// An item of an order: a trace line and 0, or a request and the number of its operation, which is not 0.
#[derive(Clone, Copy, Debug, Default, PartialEq, Eq)]
pub struct Item {
    pub id: u64,
    pub num: u64,
}

// An item as it stands in the array.
pub(crate) type Row = [u64; ITEM_ROW];

impl From<Row> for Item {
    ghost use Rattle.writing.specs.Order.{item_of};

    ghost from_gives = { λ row x. x ≡ item_of row };

    fn from(row: Row) -> Self {
        let [id, num] = row;
        Item { id, num }
    }
}

impl Line for Row {
    ghost use Rattle.std.proofs.Common.{lit≤};
    ghost use Rattle.writing.specs.Order.{item_text, item_of};

    ghost text = { λ row. item_text (item_of row) };

    ghost most = { 129 };

    ghost short = { lit≤ tt };

    #[tactic(auto, using(crate::proofs::LineLists::line_lengths), unfolding(crate::specs::Order::item_text, crate::specs::Order::event_item, crate::specs::Order::operation_item))]
    fn width(&self) -> usize {
        let Item { id, num } = Item::from(*self);
        if num == 0 {
            return 6 + numbers_width(&[id]);
        }
        3 + numbers_width(&[id, num])
    }

    #[tactic(auto, unfolding(crate::specs::Order::item_text, crate::specs::Order::event_item, crate::specs::Order::operation_item))]
    fn put(&self, out: &mut [u8]) -> Option<usize> {
        let Item { id, num } = Item::from(*self);
        if num == 0 {
            return put_line(out, b"event=", &[id]);
        }
        put_line(out, b"op=", &[id, num])
    }
}

// The first n items, ITEMS at most.
fn first_rows(items: &[u64; ITEM_ROWS], n: usize) -> &[Row]
    ensures value { result.now ≡ rows items.now (min n most_items) }
    ensures few { length result.now ≤ most_items }
{
    let (rows, _) = items.as_chunks::<ITEM_ROW>();
    &rows[..n.min(ITEMS)]
}

// How long the lines of the first n items are, ITEMS at most.
pub fn order_width(items: &[u64; ITEM_ROWS], n: usize) -> usize
    ensures value { result ≡ length (items_text items.now (min n most_items)) }
    ensures upper_bound { result ≤ 129 * most_items }
{
    widths(first_rows(items, n))
}

// Writes them to the front of out, or nothing where out is too short.
pub fn put_order(out: &mut [u8], items: &[u64; ITEM_ROWS], n: usize) -> Option<usize>
    ensures { PutIs (items_text items.now (min n most_items)) out.old out.new result }
{
    put_lines(out, first_rows(items, n))
}
