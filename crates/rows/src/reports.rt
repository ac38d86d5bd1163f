// Rows 6 and 7, over a trace and a report that were read.
ghost use Rattle.std.specs.Prelude.{◌≡◌, ◌≤◌, ◌==◌, false, [], map, length, take};
ghost use Rattle.std.specs.List.{list_any};
ghost use Rattle.text.specs.Held.{report_of};
ghost use Rattle.text.specs.Slots.{Slots as FirstSlots};
ghost use Rattle.model.specs.Requests.{row6_from};
ghost use Rattle.model.specs.Claims.{row7};
ghost use Rattle.model.specs.Batch.{claims, batch_of};
ghost use Rattle.machine.specs.Rules.{broken_line};
ghost use Rattle.rows.specs.Steps.{beyond, packed, packed_claim};

use arrayvec::ArrayVec;
use text::{BadLine, ENTRIES, Entry, Event, Log, Of, Ofs, RIDS, Slots};

// Row 6: `of` lines are not one per request in arrival order.
pub fn row_6(events: &[Event], ofs: &[Of]) -> Result<(), BadLine>
    ensures { broken_line result ≡ row6_from 1 events.now ofs.now }
{
    // j counts the requests, among which responses stand.
    let mut j: usize = 0;
    'lines: {
        for event in events {
            if let Event::Request { rid, .. } = *event {
                if ofs.get(j).is_none_or(|x| x.rid != rid) {
                    break 'lines Err(BadLine { line: j + 1 });
                }
                j += 1;
            }
        }
        if j < ofs.len() {
            break 'lines Err(BadLine { line: j + 1 });
        }
        Ok(())
    }
}

// Whether no count allows operation num of request rid: the rid is unknown, or num is 0 or above its count.
fn outside(ofs: &[Of], slots: &Slots, rid: u64, num: u64) -> bool
    requires { FirstSlots ofs.now slots.now.heads }
    ensures { result ≡ beyond ofs.now rid num }
{
    let s = slots.slot_of(ofs, rid);
    if s == ofs.len() {
        return true;
    }
    num == 0 || ofs[s].count < num
}

// A claim in one number: exact where rid and num are in their ranges, so that most lines are told apart by one comparison. (No From narrows to
// u32.)
fn pack(rid: u64, num: u64) -> u32
    ensures { result ≡ packed rid num }
{
    (rid % RIDS * 512 + num % 512) as u32
}

// The claims of all log lines.
fn pack_claims(log: &Log) -> ArrayVec<u32, ENTRIES>
    ensures { result.items ≡ map packed_claim log.now.items }
{
    let mut column = ArrayVec::new();
    for entry in log.iter() {
        column.push(pack(entry.rid, entry.num));
    }
    column
}

// Whether a log line claims operation num of request rid.
fn claims(entry: Entry, rid: u64, num: u64) -> bool
    ensures { result ≡ claims rid num entry }
{
    entry.rid == rid && entry.num == num
}

// Claims are looked through block by block.
const CLAIM_BLOCK: usize = 16;

// Whether one of a block of claims is p. No branch parts them, so that four are compared at a time.
fn among(block: &[u32; CLAIM_BLOCK], p: u32) -> bool
    ensures { result ≡ list_any (λ x. x == p) block.now }
{
    let mut found = false;
    for x in block {
        found |= *x == p;
    }
    found
}

// How many of the claims are passed by blocks of which none is p. The last block may lie over the one before.
fn passed(column: &[u32], p: u32) -> usize
    ensures within { result ≤ length column.now }
    ensures other { list_any (λ x. x == p) (take result column.now) ≡ false }
{
    let mut j: usize = 0;
    // By places and not by `as_chunks`, whose rest would be counted back to where the last block begins.
    while let Some(block) = column[j..].first_chunk::<CLAIM_BLOCK>() {
        if among(block, p) {
            return j;
        }
        j += CLAIM_BLOCK;
    }
    match column.last_chunk::<CLAIM_BLOCK>() {
        Some(block) if !among(block, p) => column.len(),
        _ => j,
    }
}

// Row 7, where the claims stand in a column: nested scans left by a label, as the scope has it. j is a place in the column and in the log.
fn scan_claims(ofs: &Ofs, log: &[Entry], column: &[u32]) -> Result<(), BadLine>
    requires { column.now ≡ map packed_claim log.now }
    ensures { broken_line result ≡ row7 (batch_of [] (report_of ofs.now.items log.now)) }
{
    let slots = Slots::of(ofs);
    'lines: {
        for (i, entry) in log.iter().enumerate() {
            let Entry { rid, num, .. } = *entry;
            if outside(ofs, &slots, rid, num) {
                break 'lines Err(BadLine {
                    line: ofs.len() + 1 + i,
                });
            }
            let p = pack(rid, num);
            for j in passed(&column[..i], p)..i {
                if column[j] == p && claims(log[j], rid, num) {
                    break 'lines Err(BadLine {
                        line: ofs.len() + 1 + i,
                    });
                }
            }
        }
        Ok(())
    }
}

// Row 7: log line's rid unknown, num 0 or above count, or claimed before.
pub fn row_7(ofs: &Ofs, log: &Log) -> Result<(), BadLine>
    ensures { broken_line result ≡ row7 (batch_of [] (report_of ofs.now.items log.now.items)) }
{
    scan_claims(ofs, log, &pack_claims(log))
}
