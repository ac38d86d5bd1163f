// The programs text: `program` lines, each followed by its `do` lines.
ghost use Rattle.std.specs.Prelude.{◌≡◌, cond, nat_lt};
ghost use Rattle.lines.specs.Place.{line_at};
ghost use Rattle.text.specs.Formats.{do_line, program_line, most_instructions};
ghost use Rattle.text.specs.Steps.{line_by, do_from, program_from, grown, ProgramJoins};
ghost use Rattle.text.specs.declared.programs.ProgramLine.TheVariants.{Program as Begin, Do};
ghost use Rattle.text.specs.Held.{ProgramsIs, no_programs, blank_program};

use crate::limits::{INSTRUCTIONS, MOST_NUMBER, PROGRAMS};
use crate::reading::{BadLine, Line, read_lines};
use lines::line_at;

// do=code,a,b,c
#[derive(Clone, Copy, Debug, Default, PartialEq, Eq)]
pub struct Instr {
    pub code: u64,
    pub a: u64,
    pub b: u64,
    pub c: u64,
}

// program=number, and its instructions: the first n of code. It is an array and no `ArrayVec`, as the scope has programs: each position, taken
// modulo INSTRUCTIONS, has an instruction, so no step of a request asks how many there are.
#[derive(Clone, Copy)]
pub struct Program {
    pub number: u64,
    pub n: usize,
    pub code: [Instr; INSTRUCTIONS],
}

impl Program {
    // One with no instructions yet.
    fn new(number: u64) -> Program
        ensures { result ≡ blank_program number }
    {
        Program {
            number,
            n: 0,
            code: [Instr::default(); INSTRUCTIONS],
        }
    }

    // One instruction more, or no room for it.
    fn push(&mut self, instr: Instr) -> bool
        ensures room { result ≡ nat_lt self.old.n most_instructions }
        ensures program { self.new ≡ cond result (grown self.old instr) self.old }
    {
        if INSTRUCTIONS <= self.n {
            return false;
        }
        self.code[self.n] = instr;
        self.n += 1;
        true
    }
}

// What was read: the first n of table, an array for the same reason.
#[derive(Clone, Copy)]
pub struct Programs {
    pub n: usize,
    pub table: [Program; PROGRAMS],
}

impl Programs {
    // None.
    pub fn new() -> Programs
        ensures { result ≡ no_programs }
    {
        Programs {
            n: 0,
            table: [Program::new(0); PROGRAMS],
        }
    }

    // One program more, or no room for it.
    fn begin(&mut self, number: u64) -> bool
        ensures { ProgramJoins (Begin number) self.old self.new result }
    {
        if PROGRAMS <= self.n {
            return false;
        }
        self.table[self.n] = Program::new(number);
        self.n += 1;
        true
    }

    // One instruction more of the last program, or no room for it, or no program.
    fn extend(&mut self, instr: Instr) -> bool
        ensures { ProgramJoins (Do instr) self.old self.new result }
    {
        if self.n == 0 || PROGRAMS < self.n {
            return false;
        }
        self.table[self.n - 1].push(instr)
    }
}

#[derive(Clone, Copy)]
pub(crate) enum ProgramLine {
    Program(u64),
    Do(Instr),
}

#[tactic(auto, unfolding(lines::specs::Place::found_in))]
fn do_at(s: &[u8], at: usize) -> Option<(ProgramLine, usize)>
    ensures { result ≡ line_by do_from (line_at do_line s.now at) }
{
    let max = MOST_NUMBER;
    let (v, end) = line_at(s, at, b"do=", &[max, max, max, max])?;
    let [code, a, b, c] = v;
    Some((ProgramLine::Do(Instr { code, a, b, c }), end))
}

#[tactic(auto, unfolding(lines::specs::Place::found_in))]
fn program_at(s: &[u8], at: usize) -> Option<(ProgramLine, usize)>
    ensures { result ≡ line_by program_from (line_at program_line s.now at) }
{
    let (v, end) = line_at(s, at, b"program=", &[MOST_NUMBER])?;
    let [number] = v;
    Some((ProgramLine::Program(number), end))
}

impl Line for ProgramLine {
    type Held = Programs;

    type Beside = ();

    ghost use Rattle.std.specs.Prelude.{List, []};
    ghost use Rattle.text.specs.Programs.{program_kinds};
    ghost use Rattle.text.specs.Held.{table_in};
    ghost use Rattle.text.specs.Steps.{program_adds, Filling};
    ghost use Rattle.text.specs.declared.programs.Program.{Program};

    ghost read = { List Program };

    ghost kinds = { program_kinds };

    ghost nothing = { [] };

    ghost adds = { program_adds };

    ghost least = { 0 };

    ghost held = { λ programs _. table_in programs };

    ghost kept = { λ programs _ _. Filling programs };

    // Most are `do` lines, which are tried first.
    fn line_at(s: &[u8], at: usize) -> Option<(Self, usize)> {
        do_at(s, at).or_else(|| program_at(s, at))
    }

    fn join(self, programs: &mut Programs, _beside: &mut ()) -> bool {
        match self {
            ProgramLine::Program(number) => programs.begin(number),
            ProgramLine::Do(instr) => programs.extend(instr),
        }
    }
}

// Reads the programs into the lent table, where each is written in its place.
pub fn read_programs(s: &[u8], programs: &mut Programs) -> Result<(), BadLine>
    ensures { ProgramsIs s.now result programs.new }
{
    programs.n = 0;
    let result = read_lines::<ProgramLine>(s, programs, &mut ());
    if result.is_err() {
        *programs = Programs::new();
    }
    result
}
