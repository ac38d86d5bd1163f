// The run of a schedule: what the host keeps of it, and row 14, line by line.
ghost use Rattle.std.specs.Prelude.{◌≡◌, ◌%◌, slice_index_or};
ghost use Rattle.text.specs.Formats.{most_rids};
ghost use Rattle.host.specs.Requests.{Stands};
ghost use Rattle.host.specs.Moves.{StepRoom, StepIs};
ghost use Rattle.host.specs.Runs.{blank, Ready, RunsFrom};

use crate::requests::{Standing, State};
use arrayvec::ArrayVec;
use machine::Objects;
use text::{BadLine, Log, Move, Ofs, Programs, REQUESTS, RIDS, Schedule, Trace};

// A slot for each rid.
const RID_SLOTS: usize = RIDS as usize;

// What the host keeps of a run. Each request has a slot, in arrival order, where its state and its `of` line stand. The log is in order of
// execution. The slot of a rid is one byte that counts from 1, and 0 says that the rid has not arrived: all of them are cleared for each run,
// and an Option would take two bytes each. A number of 64 bits becomes an index or a byte by `as`, behind a `%` or a bound that is proved:
// `try_from` would add an `Err` that never comes.
#[derive(Drop)]
pub struct Run {
    pub slots: [u8; RID_SLOTS],
    pub states: ArrayVec<State, REQUESTS>,
    pub trace: Trace,
    pub ofs: Ofs,
    pub log: Log,
    pub objects: Objects,
}

// A line of the schedule breaks row 14.
#[derive(Clone, Copy)]
pub struct Breaks;

impl Run {
    // Before the first line: no request has arrived, and the objects are as at the start.
    pub(crate) fn new() -> Run
        ensures { result ≡ blank }
    {
        Run {
            slots: [0; RID_SLOTS],
            states: ArrayVec::new(),
            trace: Trace::new(),
            ofs: Ofs::new(),
            log: Log::new(),
            objects: Objects::new(),
        }
    }

    pub(crate) fn slot_of(&self, rid: u64) -> usize
        ensures { result ≡ slice_index_or self.now.slots (rid % most_rids) 0 }
    {
        usize::from(self.slots[(rid % RIDS) as usize])
    }

    // The request of a turn.
    fn standing(&self, rid: u64) -> Standing
        ensures { Stands self.now.states.items (slice_index_or self.now.slots (rid % most_rids) 0) result }
    {
        let Some(s) = self.slot_of(rid).checked_sub(1) else {
            return Standing::Missing;
        };
        match self.states.get(s) {
            None => Standing::Missing,
            Some(x) if x.is_open => Standing::Open(s),
            Some(_) => Standing::Idle,
        }
    }

    // A line of the schedule.
    fn step(&mut self, programs: &Programs, m: Move) -> Result<(), Breaks>
        requires { StepRoom m self.old }
        ensures { StepIs programs.now m self.old self.new result }
    {
        match m {
            Move::Arrive { rid, prog, a, b } => self.arrive(programs.n, rid, prog, a, b),
            Move::Turn { rid } => match self.standing(rid) {
                Standing::Missing => Err(Breaks),
                Standing::Idle => Ok(()),
                Standing::Open(s) => self.turn(programs, s, rid),
            },
        }
    }

    // The lines of a schedule, from where no request has arrived; or the first that breaks row 14.
    pub(crate) fn play(&mut self, programs: &Programs, schedule: &Schedule) -> Result<(), BadLine>
        requires { Ready programs.now schedule.now self.old }
        ensures { RunsFrom programs.now schedule.now self.old self.new result }
    {
        // A schedule makes a line when it is asked for one, so there is no slice to go through.
        for i in 0..schedule.len() {
            self.step(programs, schedule.move_at(i))
                .map_err(|_| BadLine { line: i + 1 })?;
        }
        Ok(())
    }
}
