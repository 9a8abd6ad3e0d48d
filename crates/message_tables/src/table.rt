// The table of op codes, as the head of the crate ops has it.
use ops::{ArgUse, Carried, Form};
use std::io::Write;
use std::{fmt, io};

// The names of the op codes that are known, in the order of CMD.
const NAMES: [&str; 21] = [
    "NOP",
    "DEBUG",
    "END DEBUG",
    "STOP",
    "DEPOSIT",
    "RESUME",
    "EXAMINE",
    "DEPOSIT STATE VECTOR",
    "BREAK",
    "UNBREAK",
    "SINGLE STEP",
    "PROCEED BPT",
    "CREATE PROCESS",
    "DESTROY PROCESS",
    "WATCH",
    "END WATCH",
    "STATUS",
    "TRAP, a notice",
    "HALT, a notice",
    "BPT, a notice",
    "TTRAP, a notice",
];

// The table, between its two lines of text.
pub(crate) fn show_table<W: Write>(out: &mut W) -> io::Result<()> {
    writeln!(out, "CMD  request              reply")?;
    rows(out)?;
    writeln!(
        out,
        "CAN'T: CMD + 128, the request's fields and no string; none for NOP."
    )
}

// A row for each CMD that is known.
fn rows<W: Write>(out: &mut W) -> io::Result<()> {
    let known = (0..128u8).filter(|&cmd| ops::answer_form(cmd).is_some());
    for (cmd, name) in known.zip(NAMES) {
        writeln!(
            out,
            " {cmd:>2}  {}{}{name}",
            Used(ops::request_form(cmd)),
            Used(ops::answer_form(cmd))
        )?;
    }
    Ok(())
}

// The fields that a form uses and what it carries, or blanks where there is no form.
#[derive(Clone, Copy)]
struct Used(Option<Form>);

impl fmt::Display for Used {
    fn fmt<W: fmt::Write>(&self, f: &mut fmt::Formatter<W>) -> fmt::Result {
        let Some(form) = self.0 else {
            return write!(f, "{:21}", "");
        };
        let pid = if form.pid { "PID" } else { "---" };
        let arg1 = match form.arg1 {
            ArgUse::Unused => "----",
            ArgUse::Any => "ARG1",
            ArgUse::Size => "size",
        };
        let arg2 = if form.arg2 { "ARG2" } else { "----" };
        let carried = match form.carried {
            Carried::Nothing => "none",
            Carried::Counted => "ARG2",
            Carried::Vector => "18",
        };
        write!(f, "{pid} {arg1} {arg2} {carried:7}")
    }
}
