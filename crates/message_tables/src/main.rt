// Prints the table of op codes, then every message's written form with what the other end reads of it, then messages that are
// refused with their numbers. The gate compares all of it with the stored output.
#![tactic(auto)]

mod refused;
mod show;
mod table;
mod written;

use std::io;
use std::io::{BufWriter, Write};

fn main(rt: HostRuntime) -> io::Result<()> {
    let mut out = BufWriter::new(rt.alloc(), io::writer(&rt))?;
    table::show_table(&mut out)?;
    written::show_ops(&mut out)?;
    written::show_notices(&mut out)?;
    refused::show_writer(&mut out)?;
    refused::show_readers(&mut out)?;
    out.flush()
}
