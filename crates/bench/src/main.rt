// The bench program. Its stored test is the session of document 01.
#![tactic(auto)]

use std::io;

fn main(rt: HostRuntime) -> io::Result<()> {
    console::bench(&rt)
}
