// Printing of a request's fields, a reason and its sentence.
use format::Header;
use reasons::Reason;
use sentence::{SENTENCE_ROOM, put_sentence};
use std::io;
use std::io::Write;

// The fact that a sentence is told with; 0 where there is none.
fn fact(reason: Reason) -> u64 {
    let [first, second] = reason.facts();
    if matches!(reason, Reason::Past(..)) {
        second
    } else {
        first
    }
}

// A line of a request's fields, the number and the fact of a reason, and the sentence.
fn show<W: Write>(out: &mut W, h: Header, reason: Reason) -> io::Result<()> {
    let mut sentence = [0u8; SENTENCE_ROOM];
    let end = put_sentence(h, reason, 0, &mut sentence);
    let Header {
        host,
        cmd,
        pid,
        arg1,
        arg2,
    } = h;
    let number = reason.number();
    let fact = fact(reason);
    write!(out, "{host} {cmd} {pid} {arg1} {arg2}, {number}, {fact}: ")?;
    out.write_all(&sentence[..end])?;
    writeln!(out)
}

// A line for each request and the reason for which it is refused. The cases are borrowed one by one: the end of a list of the cases themselves would
// be their number multiplied by their 24 bytes, which is no shift.
pub(crate) fn show_all<W: Write>(out: &mut W, cases: &[&(Header, Reason)]) -> io::Result<()> {
    for (h, reason) in cases {
        show(out, *h, *reason)?;
    }
    Ok(())
}
