// Answers: lines whose third field says whether the request failed.
ghost use Rattle.std.specs.Prelude.{◌≡◌, ◌≤◌, length};
ghost use Rattle.lists.specs.Buffer.{overlay};
ghost use Rattle.fields.specs.Written.{written, line_bytes};
ghost use Rattle.fields.specs.Answer.{is_flag, answer_fields, answer_of};

use crate::read::read_line;
use crate::write::{Fields, write_fields};

// The third field of an answer that failed; it is 0 in all others.
const FAILED_FLAG: u32 = 0xffff_ffff;

// An answer: process and request as they were asked, whether it failed, and the response, which is the error number where it did.
#[derive(Clone, Copy)]
pub struct TextAnswer {
    pub pid: u32,
    pub letter: u8,
    pub failed: bool,
    pub value: u32,
}

// Whether a third field is one of an answer: 0, or the flag.
#[tactic(auto, unfolding(crate::specs::Answer::is_flag))]
fn is_flag(third: u32) -> bool
    ensures { result ≡ is_flag third }
{
    matches!(third, 0 | FAILED_FLAG)
}

impl From<TextAnswer> for Fields {
    ghost from_gives = { λ a fields. fields ≡ answer_fields a };

    // The four fields of its line.
    #[tactic(auto, unfolding(crate::specs::Answer::answer_fields))]
    fn from(a: TextAnswer) -> Fields {
        Fields {
            pid: a.pid,
            letter: a.letter,
            third: if a.failed { FAILED_FLAG } else { 0 },
            fourth: a.value,
        }
    }
}

// The line of an answer into a buffer; its length.
pub fn write_answer(a: TextAnswer, out: &mut [u8]) -> usize
    requires { line_bytes ≤ length out.old }
    ensures value { result ≡ length (written (answer_fields a)) }
    ensures upper_bound { result ≤ line_bytes }
    ensures out_after { out.new ≡ overlay (written (answer_fields a)) out.old }
{
    write_fields(Fields::from(a), out)
}

// A text as an answer, if it is the line of one.
#[tactic(auto, unfolding(crate::specs::Answer::answer_of, crate::specs::Answer::answer_from))]
pub fn read_answer(text: &[u8]) -> Option<TextAnswer>
    ensures { result ≡ answer_of text.now }
{
    let line = read_line(text);
    if !line.whole || !is_flag(line.third) {
        return None;
    }
    Some(TextAnswer {
        pid: line.pid,
        letter: line.letter,
        failed: line.third == FAILED_FLAG,
        value: line.fourth,
    })
}
