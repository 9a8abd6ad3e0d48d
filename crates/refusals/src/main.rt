// Prints a line for each kind of refusal: the request's fields, the number and the fact of the reason, and the sentence that says it. The
// gate compares all of it with the stored output.
#![tactic(auto)]

mod cases;
mod show;

use std::io;
use std::io::{BufWriter, Write};

fn main(rt: HostRuntime) -> io::Result<()> {
    let mut out = BufWriter::new(rt.alloc(), io::writer(&rt))?;
    writeln!(out, "HOST CMD PID ARG1 ARG2, reason, fact: sentence")?;
    cases::show_form(&mut out)?;
    cases::show_hosts(&mut out)?;
    cases::show_run_states(&mut out)?;
    cases::show_limits(&mut out)?;
    cases::show_breakpoints(&mut out)?;
    cases::show_others(&mut out)?;
    out.flush()
}
