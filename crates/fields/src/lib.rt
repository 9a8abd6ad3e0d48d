// Lines of four fields as text: a number, a letter and two numbers, written and read. Numbers are `0x` and lower-case hex digits without
// leading zeros, of 32 bits; one blank stands between two fields, and one newline at the end.
#![tactic(auto)]

mod answer;
mod letters;
mod number;
mod read;
pub mod theorems;
mod write;

pub use answer::{TextAnswer, read_answer, write_answer};
pub use letters::{
    CONTINUE, READ_CODE, READ_DATA, READ_REGISTER, STEP, WRITE_CODE, WRITE_DATA, WRITE_REGISTER,
    is_known,
};
pub use read::{Line, read_line};
pub use write::{Fields, LINE_BYTES, write_fields};
