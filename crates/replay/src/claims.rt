// The log lines that claim operations, found by request and number, and what they answer.
ghost use Rattle.std.specs.Prelude.{◌≡◌, ◌<◌, length, position, replicate, IfSome};
ghost use Rattle.text.specs.Formats.{most_entries};
ghost use Rattle.model.specs.Batch.{claims};
ghost use Rattle.replay.specs.Index.{Claimed, bucket_of, claim_buckets, Linked};
ghost use Rattle.replay.specs.Promises.{PreparedFrom, Answers};

use crate::limits::{CLAIM_BUCKETS, CLAIM_REMAINDERS, NO_LINE};
use machine::{Objects, shown};
use std::marker::Model;
use text::{ENTRIES, Log, Op};

fn bucket(rid: u64, num: u64) -> usize
    ensures { result ≡ bucket_of rid num }
{
    ((rid % CLAIM_REMAINDERS * 67 + num % CLAIM_REMAINDERS) % CLAIM_REMAINDERS) as usize
}

// A log with the first line of each bucket, the next line of its bucket behind each line, and the answers of all lines. Nothing is allocated,
// so a chain is led by indices.
#[derive(Drop)]
pub(crate) struct Claims<'a> {
    log: &'a Log,
    heads: [u16; CLAIM_BUCKETS],
    afters: [u16; ENTRIES],
    answers: [u64; ENTRIES],
}

impl<'a> Model for Claims<'a> {
    ghost Value = { Claimed };

    ghost view = { λ c. record { log = c.log.now.items; answers = c.answers } };

    ghost invariant = { λ c. Linked c.log.now.items c.heads c.afters };
}

// Links the lines bucket by bucket, in one pass from the back, so that each chain goes downward in the report.
fn link(log: &Log, heads: &mut [u16; CLAIM_BUCKETS], afters: &mut [u16; ENTRIES])
    requires { heads.old ≡ replicate claim_buckets most_entries }
    ensures { Linked log.now.items heads.new afters.new }
{
    // i is what is kept.
    for i in (0..log.len()).rev() {
        let b = bucket(log[i].rid, log[i].num);
        afters[i] = heads[b];
        heads[b] = i as u16;
    }
}

impl<'a> Claims<'a> {
    // The lines linked, and their answers from the objects as they are.
    pub fn new(log: &'a Log, objects: &mut Objects) -> Claims<'a>
        ensures { PreparedFrom objects.old log.now.items result }
    {
        let mut heads = [NO_LINE; CLAIM_BUCKETS];
        let mut afters = [0; ENTRIES];
        let mut answers = [0; ENTRIES];
        link(log, &mut heads, &mut afters);
        objects.answers(log, &mut answers);
        Claims {
            log,
            heads,
            afters,
            answers,
        }
    }

    // The line that claims an operation.
    pub fn line_of(&self, rid: u64, num: u64) -> Option<usize>
        ensures line { result ≡ position (claims rid num) self.now.log }
        ensures within { IfSome result (λ i. (i < length self.now.log) × (i < most_entries)) }
    {
        let mut j = usize::from(self.heads[bucket(rid, num)]);
        // Along a chain no range gives the next place.
        while let Some(entry) = self.log.get(j) {
            if entry.rid == rid && entry.num == num {
                return Some(j);
            }
            j = usize::from(self.afters[j]);
        }
        None
    }

    // Operation num of a request, which is o, held against the line that claims it: its answer, if it is the same.
    pub fn answer_of(&self, rid: u64, num: u64, o: Op) -> Option<u64>
        ensures { Answers self.now rid num o result }
    {
        let i = self.line_of(rid, num)?;
        let v = self.answers[i];
        (self.log[i].op == shown(o, v)).then_some(v)
    }
}
