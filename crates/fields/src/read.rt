// Reading a line.
ghost use Rattle.std.specs.Prelude.{◌≡◌, drop};
ghost use Rattle.fields.specs.Read.{separates, head_after, head_of, unread, head_only, whole_line, ends_at, fields_after, line_of};

use crate::letters::is_known;
use crate::number::Number;
use crate::write::Fields;

// The first two fields, and the index after them.
#[derive(Clone, Copy)]
pub struct Head {
    pub pid: u32,
    pub letter: u8,
    pub next: usize,
}

// What reading a text gives: whether the first two fields can be read, whether the text is a whole line, and the fields, 0 where not read.
// Two flags, and no Option: the crates above and their theorems name `headed` and `whole`, and what a field is where it was not read.
#[derive(Clone, Copy)]
pub struct Line {
    pub headed: bool,
    pub whole: bool,
    pub pid: u32,
    pub letter: u8,
    pub third: u32,
    pub fourth: u32,
}

// Whether a field may end at an index: nothing follows, or a blank, or a newline.
#[tactic(auto, unfolding(crate::specs::Read::separates))]
fn separates(text: &[u8], at: usize) -> bool
    ensures { result ≡ separates (drop at text.now) }
{
    matches!(text.get(at), None | Some(b' ' | b'\n'))
}

// Whether the line ends at an index: with a newline, and nothing after it.
#[tactic(auto, unfolding(crate::specs::Read::ends_at))]
fn ends(text: &[u8], at: usize) -> bool
    ensures { result ≡ ends_at text.now at }
{
    text.get(at) == Some(&b'\n') && text.len() - at == 1
}

impl Head {
    // The first two fields, after the number of the first was read.
    #[tactic(auto, unfolding(crate::specs::Read::head_after, crate::specs::Letters::known))]
    fn after(text: &[u8], n: Number) -> Option<Head>
        ensures { result ≡ head_after text.now n }
    {
        if text.get(n.next) != Some(&b' ') {
            return None;
        }
        let Some(&letter) = text.get(n.next + 1) else {
            return None;
        };
        let next = n.next + 2;
        if !is_known(letter) || !separates(text, next) {
            return None;
        }
        let pid = n.value;
        Some(Head { pid, letter, next })
    }

    // The first two fields of a text.
    #[tactic(auto, unfolding(crate::specs::Read::head_of))]
    fn of(text: &[u8]) -> Option<Head>
        ensures { result ≡ head_of text.now }
    {
        Head::after(text, Number::at(text, 0)?)
    }
}

impl Fields {
    // All four, if two numbers stand after the first two and the line ends after them.
    fn after(text: &[u8], head: Head) -> Option<Fields>
        ensures { result ≡ fields_after text.now head }
    {
        let third = Number::after(text, head.next)?;
        let fourth = Number::after(text, third.next)?;
        if !ends(text, fourth.next) {
            return None;
        }
        Some(Fields {
            pid: head.pid,
            letter: head.letter,
            third: third.value,
            fourth: fourth.value,
        })
    }
}

impl Line {
    // Nothing can be read.
    fn unread() -> Line
        ensures { result ≡ unread }
    {
        Line {
            headed: false,
            whole: false,
            pid: 0,
            letter: 0,
            third: 0,
            fourth: 0,
        }
    }

    // The first two fields, and not the rest.
    fn head_only(head: Head) -> Line
        ensures { result ≡ head_only head.pid head.letter }
    {
        Line {
            headed: true,
            pid: head.pid,
            letter: head.letter,
            ..Line::unread()
        }
    }

    // The line of four fields.
    fn whole(fields: Fields) -> Line
        ensures { result ≡ whole_line fields }
    {
        Line {
            headed: true,
            whole: true,
            pid: fields.pid,
            letter: fields.letter,
            third: fields.third,
            fourth: fields.fourth,
        }
    }
}

// A text as a line.
#[tactic(auto, unfolding(crate::specs::Read::line_of, crate::specs::Read::line_from, crate::specs::Read::line_after))]
pub fn read_line(text: &[u8]) -> Line
    ensures { result ≡ line_of text.now }
{
    let Some(head) = Head::of(text) else {
        return Line::unread();
    };
    match Fields::after(text, head) {
        Some(fields) => Line::whole(fields),
        None => Line::head_only(head),
    }
}
