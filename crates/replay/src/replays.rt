// The replay of one request against the log lines that claim its operations.
ghost use Rattle.std.specs.Prelude.{◌≡◌, cond, [], Some, None, eqb};
ghost use Rattle.replay.specs.Promises.{most_of, Replays};

use crate::claims::Claims;
use crate::lookups::{Arrival, Reply, Response};
use crate::paths::Positions;
use machine::{Act, LIMIT, carry_out, first_locals, resume};
use text::{INSTRUCTIONS, Instr, Of, POSITIONS};

// A request stops behind k operations, of which the report counts `count`: its reply, if that is not one too few or too many.
fn stopped(k: u64, count: u64, reply: Reply) -> Option<Reply>
    ensures { result ≡ cond (eqb k count) (Some reply) None }
{
    (k == count).then_some(reply)
}

// A request that goes no further without a reply: it was left open, or is cut off.
fn unreplied(is_open: bool) -> Reply
    ensures { result ≡ cond is_open None (Some (record { status = 1; value = 0 })) }
{
    (!is_open).then_some(Response {
        status: 1,
        value: 0,
    })
}

// How many instructions a request may carry out: one left open stops behind its last operation.
fn most_of(is_open: bool, k: u64, count: u64, done: usize) -> usize
    ensures { result ≡ most_of is_open k count done }
{
    if is_open && k == count { done } else { LIMIT }
}

// A request, left open or not, whose `of` line is x: its reply, if it comes out as the report has it. The positions that it carries out go to
// `positions`.
pub(crate) fn replay(
    code: &[Instr; INSTRUCTIONS],
    start: Arrival,
    x: Of,
    is_open: bool,
    claims: &Claims,
    positions: &mut Positions,
) -> Option<Reply>
    requires { positions.old.items ≡ [] }
    ensures { Replays claims.now x.rid x.count start.a start.b is_open code.now positions.new.items result }
{
    let mut l = first_locals(start.a, start.b);
    let mut at: u64 = 0;
    let mut done: usize = 0;
    let mut k: u64 = 0;
    let mut most = most_of(is_open, k, x.count, done);
    // No `for`, since an operation may move the end.
    while done < most {
        let here = at % POSITIONS;
        positions.push(here as u8);
        done += 1;
        match carry_out(&mut l, code[here as usize], here + 1) {
            Act::Goes(to) => {
                at = to;
            }
            Act::Asks(o, into) => {
                if x.count <= k {
                    return None;
                }
                let v = claims.answer_of(x.rid, k + 1, o)?;
                resume(&mut l, into, v);
                k += 1;
                at = here + 1;
                most = most_of(is_open, k, x.count, done);
            }
            Act::Replies(value) => {
                return stopped(k, x.count, Some(Response { status: 0, value }));
            }
        }
    }
    stopped(k, x.count, unreplied(is_open))
}
