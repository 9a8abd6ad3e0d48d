// The replay program. Its stored test is the handover: the seller debugs the vents, and the installer after him; then, among others, a
// breakpoint that is passed and met again, how processes lie in the one memory and move in it, and packets and ticks of the Pup door.
#![tactic(auto)]

use std::io;

fn main(rt: HostRuntime) -> io::Result<()> {
    console::replay(&rt)
}
