// A request: its locals at the start and behind an operation, what it comes to next, and how long it may go on. Whoever runs it loops over
// `carry_out`.
ghost use Rattle.std.specs.Prelude.{◌≡◌};
ghost use Rattle.machine.specs.Processes.{first_locals, resumed};

use crate::limits::{LOCALS, NO_LOCAL};
use text::Op;

// A request that has carried out this many instructions without a reply is cut off.
pub const LIMIT: usize = 256;

// What a request comes to next: an operation with the local for its answer, its reply, or its cut.
#[derive(Clone, Copy, Debug, PartialEq, Eq)]
pub enum Next {
    Operation(Op, u64),
    Reply(u64),
    Cut,
}

// A request that has gone on: its position, the instructions carried out, and what it came to.
#[derive(Clone, Copy, Debug, PartialEq, Eq)]
pub struct Stop {
    pub at: u64,
    pub done: usize,
    pub next: Next,
}

// The locals of a request with inputs a and b.
pub fn first_locals(a: u64, b: u64) -> [u64; LOCALS]
    ensures { result ≡ first_locals a b }
{
    [a, b, 0, 0, 0, 0, 0, 0]
}

// The answer v of an operation goes into its local.
pub fn resume(l: &mut [u64; LOCALS], into: u64, v: u64)
    ensures { l.new ≡ resumed l.old into v }
{
    if into < NO_LOCAL {
        l[into as usize] = v;
    }
}
