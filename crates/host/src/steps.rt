// What one line of the schedule does to a run: an arrival opens a request; a turn takes one on to its next operation, or to its reply or cut.
ghost use Rattle.std.specs.Prelude.{◌≡◌, ◌<◌, length};
ghost use Rattle.text.specs.Held.{most_events};
ghost use Rattle.host.specs.Moves.{arrived, ArriveRoom, ArriveIs, OperateRoom, OperateIs, replied, TurnRoom, TurnIs};

use crate::requests::{State, advance};
use crate::runs::{Breaks, Run};
use machine::{Next, first_locals, resume, shown};
use text::{Entry, Event, Of, Op, Programs, RIDS};

impl Run {
    // A request opens in the next slot.
    fn open(&mut self, rid: u64, prog: u64, a: u64, b: u64)
        requires { ArriveRoom self.old }
        ensures { self.new ≡ arrived rid prog a b self.old }
    {
        let s = self.states.len();
        self.slots[(rid % RIDS) as usize] = (s + 1) as u8;
        self.states.push(State {
            is_open: true,
            prog,
            at: 0,
            done: 0,
            locals: first_locals(a, b),
        });
        self.ofs.push(Of {
            rid,
            group: s as u64,
            count: 0,
        });
        self.trace.push(Event::Request { rid, prog, a, b });
    }

    // An arrival, where n programs are known. Its numbers come one by one, as `Move` and `Event` have them.
    pub(crate) fn arrive(
        &mut self,
        n: usize,
        rid: u64,
        prog: u64,
        a: u64,
        b: u64,
    ) -> Result<(), Breaks>
        requires { ArriveRoom self.old }
        ensures { ArriveIs n rid prog a b self.old self.new result }
    {
        if n as u64 <= prog {
            return Err(Breaks);
        }
        if self.slot_of(rid) != 0 {
            return Err(Breaks);
        }
        self.open(rid, prog, a, b);
        Ok(())
    }

    // The request in slot s has come to an operation. Its line joins the log, and the answer goes into its local.
    fn operate(&mut self, s: usize, rid: u64, mut x: State, o: Op, into: u64) -> Result<(), Breaks>
        requires { OperateRoom s self.old }
        ensures { OperateIs s rid x o into self.old self.new result }
    {
        if self.log.is_full() {
            return Err(Breaks);
        }
        let num = self.ofs[s].count + 1;
        let answer = self.objects.perform(o);
        let op = shown(o, answer);
        self.log.push(Entry { rid, num, op });
        self.ofs[s].count = num;
        resume(&mut x.locals, into, answer);
        self.states[s] = x;
        Ok(())
    }

    // The request in slot s has come to its reply or cut, and closes.
    fn reply(&mut self, s: usize, rid: u64, x: State, status: u64, value: u64)
        requires { (s < length self.old.states.items) × (length self.old.trace.items < most_events) }
        ensures { self.new ≡ replied s rid x status value self.old }
    {
        self.states[s] = State {
            is_open: false,
            ..x
        };
        self.trace.push(Event::Response { rid, status, value });
    }

    // A turn of the open request in slot s.
    pub(crate) fn turn(&mut self, programs: &Programs, s: usize, rid: u64) -> Result<(), Breaks>
        requires { TurnRoom s self.old }
        ensures { TurnIs programs.now.table s rid self.old self.new result }
    {
        let mut x = self.states[s];
        let code = &programs.table[x.prog as usize].code;
        let stop = advance(code, &mut x.locals, x.at, x.done);
        x.at = stop.at;
        x.done = stop.done;
        match stop.next {
            Next::Operation(o, into) => self.operate(s, rid, x, o, into),
            Next::Reply(v) => {
                self.reply(s, rid, x, 0, v);
                Ok(())
            }
            Next::Cut => {
                self.reply(s, rid, x, 1, 0);
                Ok(())
            }
        }
    }
}
