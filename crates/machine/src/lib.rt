// The machine: the program rules, one instruction, what a request comes to, and the objects.
#![tactic(auto)]

mod instructions;
mod limits;
mod objects;
mod processes;
mod rules;

pub use instructions::{Act, carry_out};
pub use limits::{LOCALS, REGISTERS};
pub use objects::{Objects, shown};
pub use processes::{LIMIT, Next, Stop, first_locals, resume};
pub use rules::{Field, Fields, check_rules};
