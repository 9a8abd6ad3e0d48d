// The text door on standard input and output: what the bench's text debugger speaks to. Its stored test is a session of that debugger.
#![tactic(auto)]

use std::io;

fn main(rt: HostRuntime) -> io::Result<()> {
    console::text_door(&rt)
}
