// One instruction on the eight locals of a request. The locals are lent, so that nothing large is copied for an instruction.
ghost use Rattle.std.specs.Prelude.{◌≡◌, ℕ, ◌%◌, true, nat_lt};
ghost use Rattle.text.specs.Formats.{most_objects};
ghost use Rattle.text.specs.Codes.{is_operation};
ghost use Rattle.machine.specs.Instructions.{local, assign, bit, becomes, effect, effect_of};

use crate::limits::{LOCAL_NUMBERS, LOCALS, NO_LOCAL};
use bits::half_sum;
use text::{
    ADD, CONSTANT, GET, HAS, Instr, JUMP, LESS, OBJECTS, Op, PUT, READ, REPLY, SUBTRACT, WRITE,
};

// What an instruction comes to: the request goes on at a position, asks for the answer of an operation, or replies.
// With an operation goes the local for its answer, 8 where it takes none, as the definitions of a machine have it (`asks` and `resumed`).
#[derive(Clone, Copy, Debug, PartialEq, Eq)]
pub enum Act {
    Goes(u64),
    Asks(Op, u64),
    Replies(u64),
}

fn local_at(l: &[u64; LOCALS], i: u64) -> u64
    ensures { result ≡ local l.now i }
{
    l[(i % LOCAL_NUMBERS) as usize]
}

fn put_local(l: &mut [u64; LOCALS], i: u64, v: u64)
    ensures { l.new ≡ assign l.old i v }
{
    l[(i % LOCAL_NUMBERS) as usize] = v;
}

// Code 4 is a function of its own, so that how its 1 or 0 is made stays in here: by arithmetic and bit operations alone, with no branch and no
// comparison. `!x` is 2^64 - 1 - x, so x is below y exactly when `!x + y` is 2^64 or more, and then the highest bit of half of it is 1.
fn below(x: u64, y: u64) -> u64
    ensures { result ≡ bit (nat_lt x y) }
{
    half_sum(!x, y) >> 63
}

// Local a becomes v, and the request goes on at `next`.
fn becomes(l: &mut [u64; LOCALS], i: Instr, v: u64, next: u64) -> Act
    ensures { becomes l.old i v next ≡ effect l.new result }
{
    put_local(l, i.a, v);
    Act::Goes(next)
}

fn op_of(object: u64, kind: u64, key: u64, value: u64) -> Op
    ensures { result ≡ record { object = object % most_objects; kind = kind; key = key; value = value } }
{
    Op {
        object: object % OBJECTS,
        kind,
        key,
        value,
    }
}

// The operation that an instruction asks for.
#[tactic(auto, unfolding(crate::specs::Instructions::effect_as))]
fn asked(l: &[u64; LOCALS], i: Instr) -> Act
    requires { is_operation i.code ≡ true }
    ensures { (n : ℕ) → effect_of l.now i n ≡ effect l.now result }
{
    let code = i.code;
    match code {
        READ => Act::Asks(op_of(i.b, code, 0, 0), i.a % LOCAL_NUMBERS),
        WRITE => Act::Asks(op_of(i.a, code, 0, local_at(l, i.b)), NO_LOCAL),
        GET | HAS => Act::Asks(op_of(i.b, code, local_at(l, i.c), 0), i.a % LOCAL_NUMBERS),
        _ => Act::Asks(
            op_of(i.a, code, local_at(l, i.b), local_at(l, i.c)),
            NO_LOCAL,
        ),
    }
}

// Carries out an instruction, where `next` is the position behind it. Its code stays a number: any may stand there, and one that is no code
// does nothing.
#[tactic(auto, unfolding(crate::specs::Instructions::effect_as))]
pub fn carry_out(l: &mut [u64; LOCALS], i: Instr, next: u64) -> Act
    ensures { effect_of l.old i next ≡ effect l.new result }
{
    let code = i.code;
    match code {
        REPLY => Act::Replies(local_at(l, i.a)),
        CONSTANT => becomes(l, i, i.b, next),
        ADD => {
            let v = local_at(l, i.b).wrapping_add(local_at(l, i.c));
            becomes(l, i, v, next)
        }
        SUBTRACT => {
            let v = local_at(l, i.b).wrapping_sub(local_at(l, i.c));
            becomes(l, i, v, next)
        }
        LESS => {
            let v = below(local_at(l, i.b), local_at(l, i.c));
            becomes(l, i, v, next)
        }
        JUMP => {
            if local_at(l, i.a) == 0 {
                Act::Goes(next)
            } else {
                Act::Goes(i.b)
            }
        }
        READ..=HAS => asked(l, i),
        _ => Act::Goes(next),
    }
}
