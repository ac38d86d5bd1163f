// Decimal numbers and lines: reading at a place of a text, and writing to the front of a lent buffer.
#![tactic(auto)]

mod lines;
mod numbers;
mod writer;

pub use lines::line_at;
pub use writer::{FIELDS, append_line, numbers_width, put_bytes, put_line, put_number};
