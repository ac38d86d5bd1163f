// The requests of a run: where each stands, and how it goes on to its next operation, its reply or its cut.
ghost use Rattle.std.specs.Prelude.{◌≡◌, []};
ghost use Rattle.machine.specs.Processes.{advanced, limit, advance_of};
ghost use Rattle.host.specs.Requests.{pathless};

use machine::{Act, LIMIT, LOCALS, Next, Stop, carry_out};
use text::{INSTRUCTIONS, Instr, POSITIONS};

// A request that has arrived: whether it is open, its program, its position, how many instructions it has carried out, and its locals.
// is_open is a flag and no Option, since one that has closed keeps the rest (`replied`).
#[derive(Clone, Copy, Default)]
pub struct State {
    pub is_open: bool,
    pub prog: u64,
    pub at: u64,
    pub done: usize,
    pub locals: [u64; LOCALS],
}

// What a turn finds: no such request, one that has its response, or an open one with its slot (from 0).
#[derive(Clone, Copy)]
pub enum Standing {
    Missing,
    Idle,
    Open(usize),
}

// A request goes on by these instructions up to and including its next operation, or to its reply, or to its cut. The host keeps no path of it.
// Locals, position and count come one by one, as the definition takes them (`advance_of`).
pub(crate) fn advance(
    code: &[Instr; INSTRUCTIONS],
    l: &mut [u64; LOCALS],
    mut at: u64,
    done: usize,
) -> Stop
    ensures { advanced l.new result [] ≡ pathless (advance_of limit code.now l.old at done) }
{
    for carried in done..LIMIT {
        let here = at % POSITIONS;
        let next = here + 1;
        match carry_out(l, code[here as usize], next) {
            Act::Goes(to) => {
                at = to;
            }
            Act::Asks(o, into) => {
                return Stop {
                    at: next,
                    done: carried + 1,
                    next: Next::Operation(o, into),
                };
            }
            Act::Replies(v) => {
                return Stop {
                    at: next,
                    done: carried + 1,
                    next: Next::Reply(v),
                };
            }
        }
    }
    Stop {
        at,
        done: done.max(LIMIT),
        next: Next::Cut,
    }
}
