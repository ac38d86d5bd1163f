// The program rules: the first line of the programs text that breaks one.
ghost use Rattle.std.specs.Prelude.{◌≡◌, ◌<◌, min};
ghost use Rattle.basics.specs.Firsts.{firsts};
ghost use Rattle.text.specs.Formats.{most_programs};
ghost use Rattle.text.specs.Held.{program_at};
ghost use Rattle.machine.specs.Rules.{fits_as, keeps_fields, program, instruction, keeps_rules, row2, broken_line};

use crate::limits::{FIRST_STORE, LOCAL_NUMBERS};
use crate::rules::Field::{Constant, Local, Register, Store, Target, Unused};
use text::{BadLine, CODES, INSTRUCTIONS, Instr, OBJECTS, PROGRAMS, Program, Programs, REPLY};

// What a field of an instruction names.
#[derive(Clone, Copy, Debug, PartialEq, Eq)]
pub enum Field {
    Unused,
    Constant,
    Local,
    Register,
    Store,
    Target,
}

// What fields a, b and c of an instruction name.
#[derive(Clone, Copy, Debug, PartialEq, Eq)]
pub struct Fields(pub Field, pub Field, pub Field);

// The fields of each code.
const FIELDS: [Fields; CODES] = [
    Fields(Local, Unused, Unused),
    Fields(Local, Constant, Unused),
    Fields(Local, Local, Local),
    Fields(Local, Local, Local),
    Fields(Local, Local, Local),
    Fields(Local, Target, Unused),
    Fields(Local, Register, Unused),
    Fields(Register, Local, Unused),
    Fields(Local, Store, Local),
    Fields(Store, Local, Local),
    Fields(Local, Store, Local),
];

impl Field {
    // What it names may be v, in a program of n instructions.
    fn fits(self, v: u64, n: u64) -> bool
        ensures { result ≡ fits_as self n v }
    {
        match self {
            Unused => v == 0,
            Constant => true,
            Local => v < LOCAL_NUMBERS,
            Register => v < FIRST_STORE,
            Store => FIRST_STORE <= v && v < OBJECTS,
            Target => v < n,
        }
    }
}

// An instruction has a code, and each field fits, in a program of n instructions.
fn keeps(i: Instr, n: u64) -> bool
    ensures { result ≡ keeps_fields n i }
{
    if CODES as u64 <= i.code {
        return false;
    }
    let Fields(a, b, c) = FIELDS[i.code as usize];
    a.fits(i.a, n) && b.fits(i.b, n) && c.fits(i.c, n)
}

// Program k has its number and at least one instruction (and no more than there is room for).
fn head_keeps(p: &Program, k: usize) -> bool
    ensures { result ≡ keeps_rules (program k p.now.number p.now.n) }
{
    p.number == k as u64 && p.n != 0 && p.n <= INSTRUCTIONS
}

// Instruction j of n keeps the rules; the last has code 0.
fn body_keeps(i: Instr, j: usize, n: usize) -> bool
    requires { j < n }
    ensures { result ≡ keeps_rules (instruction j n i) }
{
    keeps(i, n as u64) && (j + 1 < n || i.code == REPLY)
}

// Every line of the text is a `program` or a `do`, so the programs' counts give the line. Nested scans left by a label, as the scope has it.
pub fn check_rules(ps: &Programs) -> Result<(), BadLine>
    ensures { broken_line result ≡ row2 (firsts (program_at ps.now.table) (min ps.now.n most_programs)) }
{
    let mut ruling = Ok(());
    let mut line: usize = 1;
    'table: for (k, p) in ps.table[..ps.n.min(PROGRAMS)].iter().enumerate() {
        if !head_keeps(p, k) {
            ruling = Err(BadLine { line });
            break 'table;
        }
        line += 1;
        for (j, i) in p.code[..p.n].iter().enumerate() {
            if !body_keeps(*i, j, p.n) {
                ruling = Err(BadLine { line });
                break 'table;
            }
            line += 1;
        }
    }
    ruling
}
