// Rows 10 to 12: each request replayed by itself, in arrival order.
ghost use Rattle.std.specs.Prelude.{◌≡◌, ◌≢◌, [], IfErr};
ghost use Rattle.replay.specs.Held.{batch_held};
ghost use Rattle.replay.specs.Promises.{row_by, ReplaysRequest, JudgesRequests};

use crate::batch::{Batch, Fault};
use crate::claims::Claims;
use crate::lookups::{Reply, arrival_of, first_of_group, response_of};
use crate::paths::{Path, same_way};
use crate::replays::replay;
use arrayvec::ArrayVec;
use text::{Event, OFS, Of, PROGRAM_NUMBERS, Programs};

// The request of an `of` line, left open or not, replayed. Its way goes to `path`.
fn replay_request(
    ps: &Programs,
    events: &[Event],
    x: Of,
    is_open: bool,
    claims: &Claims,
    path: &mut Path,
) -> Option<Reply>
    requires { path.old.positions.items ≡ [] }
    ensures { ReplaysRequest ps.now.table events.now x is_open claims.now path.new result }
{
    let start = arrival_of(events, x.rid)?;
    path.prog = start.prog;
    let program = &ps.table[(start.prog % PROGRAM_NUMBERS) as usize];
    replay(
        &program.code,
        start,
        x,
        is_open,
        claims,
        &mut path.positions,
    )
}

// The row that a request breaks first: how its replay came out, its response, and whether its way is that of the first of its group. A number,
// as `Fault` has it.
fn row_of(end: Option<Reply>, reply: Reply, same_way: bool) -> Option<u64>
    ensures { result ≡ row_by end reply same_way }
{
    match end {
        None => Some(10),
        Some(own) if own != reply => Some(11),
        Some(_) if !same_way => Some(12),
        Some(_) => None,
    }
}

// The first fault of rows 10 to 12.
pub(crate) fn judge_requests(ps: &Programs, batch: Batch, claims: &Claims) -> Result<(), Fault>
    ensures judges { JudgesRequests ps.now.table (batch_held batch.entry) claims.now result }
    ensures refuses { IfErr result (λ f. f.row ≢ 0) }
{
    let events = batch.events.as_slice();
    let ofs = batch.ofs.as_slice();
    let mut paths = ArrayVec::<Path, OFS>::new();
    for (k, of) in ofs.iter().enumerate() {
        let f = first_of_group(ofs, of.group).unwrap_or(k);
        let x = *of;
        let reply = response_of(events, x.rid);
        let is_open = reply.is_none();
        let mut path = Path::default();
        let end = replay_request(ps, events, x, is_open, claims, &mut path);
        if let Some(row) = row_of(end, reply, same_way(&paths, f, &path)) {
            // No From makes a u64 of a usize.
            return Err(Fault {
                row,
                line: (k + 1) as u64,
            });
        }
        paths.push(path);
    }
    Ok(())
}
