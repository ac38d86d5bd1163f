// The schedule: `arrive` and `turn` lines. A text holds up to MOVES lines, most of them turns, so a line is kept in four bytes, and
// the numbers of the arrivals stand in a list of their own. Rids and places fit 16 and 8 bits, to which no From narrows.
ghost use Rattle.std.specs.Prelude.{ℕ, ◌≡◌, ◌≤◌, [], cond, length, slice_get, get_or, IfOk};
ghost use Rattle.lines.specs.Place.{line_at};
ghost use Rattle.text.specs.Formats.{arrive_line, turn_line};
ghost use Rattle.text.specs.Held.{read_in, moves_in, most_moves, arrival_at, no_move, TurnIn, has_room, with_move};
ghost use Rattle.text.specs.Steps.{line_by, turned_from, arrived_from, ScheduleKept, ScheduleJoins};
ghost use Rattle.text.specs.declared.schedule.ScheduleLine.TheVariants.{Arrive as Arrived};
ghost use Rattle.text.specs.Schedule.{read_schedule};

use crate::limits::{ARRIVALS, MOST_NUMBER, MOST_RID, MOVES, RIDS};
use crate::reading::{BadLine, Line, read_lines};
use arrayvec::ArrayVec;
use lines::line_at;

// arrive=rid,prog,a,b or turn=rid
#[derive(Clone, Copy, Debug, PartialEq, Eq)]
pub enum Move {
    Arrive { rid: u64, prog: u64, a: u64, b: u64 },
    Turn { rid: u64 },
}

// The numbers of an arrival. `Move` has them as fields of its own, as the definitions take them one by one.
#[derive(Clone, Copy, Default)]
pub(crate) struct Arrival {
    rid: u64,
    prog: u64,
    a: u64,
    b: u64,
}

// A line that was read.
#[derive(Clone, Copy)]
pub(crate) enum ScheduleLine {
    Arrive(Arrival),
    Turn(u16),
}

// A line as it is kept: a turn with its rid, or an arrival with its place among the arrivals.
#[derive(Clone, Copy)]
enum Kept {
    Turn(u16),
    Arrival(u8),
}

// By hand, since a derive takes only a variant without fields.
impl Default for Kept {
    ghost use Rattle.text.specs.declared.schedule.Kept.TheVariants.{Turn};

    ghost is_default = { λ k. k ≡ Turn 0 };

    fn default() -> Self {
        Kept::Turn(0)
    }
}

#[derive(Drop)]
pub struct Schedule {
    lines: ArrayVec<Kept, MOVES>,
    arrivals: ArrayVec<Arrival, ARRIVALS>,
}

impl Schedule {
    // One with no line.
    #[tactic(auto, unfolding(crate::specs::Held::moves_in))]
    pub fn new() -> Schedule
        ensures moves { moves_in result ≡ [] }
        ensures kept { ScheduleKept result 0 }
    {
        Schedule {
            lines: ArrayVec::new(),
            arrivals: ArrayVec::new(),
        }
    }

    #[tactic(auto, unfolding(crate::specs::Held::moves_in))]
    pub fn len(&self) -> usize
        ensures count { result ≡ length (moves_in self.now) }
        ensures few { result ≤ most_moves }
    {
        self.lines.len()
    }

    // Line i, counted from 0; past the last a turn of request 0.
    pub fn move_at(&self, i: usize) -> Move
        ensures line { result ≡ get_or (moves_in self.now) i no_move }
        ensures turn { TurnIn result }
    {
        match self.line(i) {
            Some(Kept::Turn(rid)) => Move::Turn {
                rid: u64::from(rid),
            },
            Some(Kept::Arrival(place)) => self.arrival(usize::from(place)),
            None => Move::Turn { rid: 0 },
        }
    }

    // A line behind the others. Where there is no room for it, or for the numbers of an arrival, nothing changes and the answer is false. Any
    // rid is taken: that of a turn modulo RIDS, so that it is one.
    pub fn put_move(&mut self, x: Move) -> bool
        ensures room { result ≡ has_room self.old x }
        ensures schedule { self.new ≡ cond result (with_move self.old x) self.old }
    {
        match x {
            Move::Arrive { rid, prog, a, b } => {
                if self.lines.is_full() || self.arrivals.is_full() {
                    return false;
                }
                self.lines.push(Kept::Arrival(self.arrivals.len() as u8));
                self.arrivals.push(Arrival { rid, prog, a, b });
                true
            }
            Move::Turn { rid } => self.lines.try_push(Kept::Turn((rid % RIDS) as u16)).is_ok(),
        }
    }

    fn line(&self, i: usize) -> Option<Kept>
        ensures { result ≡ slice_get self.now.lines.items i }
    {
        self.lines.get(i).copied()
    }

    fn arrival(&self, place: usize) -> Move
        ensures { result ≡ arrival_at self.now.arrivals.items place }
    {
        let x = self.arrivals.get(place).copied().unwrap_or_default();
        Move::Arrive {
            rid: x.rid,
            prog: x.prog,
            a: x.a,
            b: x.b,
        }
    }

    fn clear(&mut self)
        ensures moves { moves_in self.new ≡ [] }
        ensures kept { ScheduleKept self.new 0 }
    {
        self.lines.clear();
        self.arrivals.clear();
    }

    fn add_arrival(&mut self, x: Arrival) -> bool
        ensures { ScheduleJoins (Arrived x) self.old self.new result }
    {
        let place = self.arrivals.len() as u8;
        self.arrivals.try_push(x).is_ok() && self.lines.try_push(Kept::Arrival(place)).is_ok()
    }
}

#[tactic(auto, unfolding(lines::specs::Place::found_in))]
fn turn_at(s: &[u8], at: usize) -> Option<(ScheduleLine, usize)>
    ensures { result ≡ line_by turned_from (line_at turn_line s.now at) }
{
    let (v, end) = line_at(s, at, b"turn=", &[MOST_RID])?;
    let [rid] = v;
    Some((ScheduleLine::Turn(rid as u16), end))
}

#[tactic(auto, unfolding(lines::specs::Place::found_in))]
fn arrive_at(s: &[u8], at: usize) -> Option<(ScheduleLine, usize)>
    ensures { result ≡ line_by arrived_from (line_at arrive_line s.now at) }
{
    let max = MOST_NUMBER;
    let (v, end) = line_at(s, at, b"arrive=", &[MOST_RID, max, max, max])?;
    let [rid, prog, a, b] = v;
    Some((ScheduleLine::Arrive(Arrival { rid, prog, a, b }), end))
}

impl Line for ScheduleLine {
    type Held = Schedule;

    type Beside = ();

    ghost use Rattle.std.specs.Prelude.{List, []};
    ghost use Rattle.text.specs.Schedule.{schedule_kinds};
    ghost use Rattle.text.specs.Steps.{schedule_adds};
    ghost use Rattle.text.specs.declared.schedule.Move.{Move};

    ghost read = { List Move };

    ghost kinds = { schedule_kinds };

    ghost nothing = { [] };

    ghost adds = { schedule_adds };

    ghost least = { 7 };

    ghost held = { λ schedule _. moves_in schedule };

    ghost kept = { λ schedule _ at. ScheduleKept schedule at };

    // Most are turns, which are tried first.
    fn line_at(s: &[u8], at: usize) -> Option<(Self, usize)> {
        turn_at(s, at).or_else(|| arrive_at(s, at))
    }

    fn join(self, schedule: &mut Schedule, _beside: &mut ()) -> bool {
        match self {
            ScheduleLine::Arrive(x) => schedule.add_arrival(x),
            ScheduleLine::Turn(rid) => schedule.lines.try_push(Kept::Turn(rid)).is_ok(),
        }
    }
}

// Reads a schedule.
#[tactic(auto, unfolding(crate::specs::Schedule::read_schedule))]
pub fn read_schedule(s: &[u8], schedule: &mut Schedule) -> Result<(), BadLine>
    ensures read { read_in result (moves_in schedule.new) ≡ read_schedule s.now }
    ensures kept { IfOk result (λ _. (at : ℕ) × ScheduleKept schedule.new at) }
{
    schedule.clear();
    read_lines::<ScheduleLine>(s, schedule, &mut ())
}
