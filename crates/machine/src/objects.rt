// The objects as they are now: the registers' values, and the stores. What an operation answers and leaves, and what the operations of a
// report's log answer, one after the other.
ghost use Rattle.std.specs.Prelude.{◌≡◌, ◌%◌, take, slice_index, slice_set};
ghost use Rattle.text.specs.Formats.{most_entries};
ghost use Rattle.machine.specs.Limits.{first_store};
ghost use Rattle.machine.specs.Objects.{register, apply, finds, shown};
ghost use Rattle.machine.specs.Held.{register_left, OnStore, Performs, AnswersAll, no_objects};

use crate::limits::{FIRST_STORE, REGISTERS};
use cells::Stores;
use text::{ENTRIES, Entry, GET, HAS, Op, PUT, READ, WRITE};

#[derive(Drop)]
pub struct Objects {
    pub registers: [u64; REGISTERS],
    pub stores: Stores,
}

// What an operation finds at its key: 1 for a key that was put, be it as 0, where it asks for that, and the value otherwise.
fn finds(x: Op, held: Option<u64>) -> u64
    ensures { result ≡ finds x held }
{
    if x.kind == HAS {
        u64::from(held.is_some())
    } else {
        held.unwrap_or(0)
    }
}

// An operation on a register. The answer is the register's value, or 0 for a write.
fn on_register(registers: &mut [u64; REGISTERS], x: Op) -> u64
    ensures answer { result ≡ (apply x (register (slice_index registers.old (x.object % first_store)))).0 }
    ensures left { registers.new
        ≡ slice_set registers.old (x.object % first_store) (register_left x (slice_index registers.old (x.object % first_store))) }
{
    let o = (x.object % FIRST_STORE) as usize;
    if x.kind == WRITE {
        registers[o] = x.value;
        return 0;
    }
    registers[o]
}

// An operation on a store.
fn on_store(stores: &mut Stores, x: Op) -> u64
    ensures { OnStore stores.old x stores.new result }
{
    if x.kind == PUT {
        stores.put(x.object, x.key, x.value);
        return 0;
    }
    finds(x, stores.look(x.object, x.key))
}

impl Objects {
    // The objects before the first operation.
    pub fn new() -> Objects
        ensures { result ≡ no_objects }
    {
        Objects {
            registers: [0; REGISTERS],
            stores: Stores::new(),
        }
    }

    // An operation on the objects, and its answer.
    pub fn perform(&mut self, x: Op) -> u64
        ensures { Performs self.old x self.new result }
    {
        if x.object < FIRST_STORE {
            on_register(&mut self.registers, x)
        } else {
            on_store(&mut self.stores, x)
        }
    }

    // The answers of the first lines, at most ENTRIES, to the front of `out`.
    pub fn answers(&mut self, log: &[Entry], out: &mut [u64; ENTRIES])
        ensures { AnswersAll self.old (take most_entries log.now) out.old self.new out.new }
    {
        // i is a place in both.
        let log = &log[..ENTRIES.min(log.len())];
        for (i, entry) in log.iter().enumerate() {
            out[i] = self.perform(entry.op);
        }
    }
}

// An operation as its log line has it, given its answer: a read shows what it got.
pub fn shown(x: Op, answer: u64) -> Op
    ensures { result ≡ shown x answer }
{
    match x.kind {
        READ | GET | HAS => Op { value: answer, ..x },
        _ => x,
    }
}
