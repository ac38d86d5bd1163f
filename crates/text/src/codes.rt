// The codes of instructions, and which of them are operations. A log line's kind is its operation's code. A text may hold any number as a
// code, so it stays one.
ghost use Rattle.std.specs.Prelude.{◌≡◌};
ghost use Rattle.text.specs.Codes.{is_operation};

// How many there are.
pub const CODES: usize = 11;

pub const REPLY: u64 = 0;

pub const CONSTANT: u64 = 1;

pub const ADD: u64 = 2;

pub const SUBTRACT: u64 = 3;

pub const LESS: u64 = 4;

pub const JUMP: u64 = 5;

pub const READ: u64 = 6;

pub const WRITE: u64 = 7;

pub const GET: u64 = 8;

pub const PUT: u64 = 9;

pub const HAS: u64 = 10;

pub fn is_operation(kind: u64) -> bool
    ensures { result ≡ is_operation kind }
{
    matches!(kind, READ..=HAS)
}
