// The bench program once more: its stored test has the cases of document 01 that are run and not proved, and lines of every kind.
#![tactic(auto)]

use std::io;

fn main(rt: HostRuntime) -> io::Result<()> {
    console::bench(&rt)
}
