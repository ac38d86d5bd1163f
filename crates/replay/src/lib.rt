// Rows 8 to 12 of the audit, on a trace and a report that were read: the counts, the order, and the replay of each request.
#![tactic(auto)]

mod batch;
mod claims;
mod counts;
mod limits;
mod lookups;
mod orders;
mod paths;
mod replays;
mod requests;

ghost use Rattle.std.specs.Prelude.{◌≢◌, IfErr};
ghost use Rattle.replay.specs.Held.{batch_held};
ghost use Rattle.replay.specs.Judges.{JudgesFrom, Orders};

pub use batch::{Batch, Fault};
use claims::Claims;
use counts::row_8;
use machine::Objects;
use orders::put_order;
use requests::judge_requests;
use text::{ITEMS, Programs};

// The first fault of rows 8 to 12, from the objects as they are.
pub fn judge(ps: &Programs, batch: Batch, objects: &mut Objects) -> Result<(), Fault>
    ensures judges { JudgesFrom objects.old ps.now (batch_held batch.entry) result }
    ensures refuses { IfErr result (λ f. f.row ≢ 0) }
{
    let claims = Claims::new(batch.log, objects);
    row_8(batch.ofs, &claims).map_err(|broken| Fault {
        row: 8,
        line: broken.line as u64,
    })?;
    let mut order = [0; ITEMS];
    if put_order(batch, &mut order) {
        return Err(Fault { row: 9, line: 0 });
    }
    judge_requests(ps, batch, &claims)
}

// The order of the items of a batch, as places, to the front of `order`: what `judge` found where it found no row 9. It is made again, so that
// an audit which nobody asks for an order writes none.
pub fn order_items(batch: Batch, order: &mut [u16; ITEMS])
    ensures { Orders (batch_held batch.entry) order.new }
{
    put_order(batch, order);
}
