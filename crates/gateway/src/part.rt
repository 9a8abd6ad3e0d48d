// Where in memory the bytes of a process lie.
ghost use Rattle.std.specs.Prelude.{◌≡◌, cond, ◌≤◌, ◌<◌, length};
ghost use Rattle.state.specs.Records.{start_of};
ghost use Rattle.state_bytes.specs.State.{state_of};
ghost use Rattle.state_bytes.specs.Widths.{state_width};

use state_bytes::read_start;

// Where the bytes of process pid begin. An absent one has none, and its start may be any number: 0 stands for it.
pub(crate) fn start_of(there: bool, pid: usize, state: &[u8]) -> usize
    requires pid_bound { pid < 8 }
    requires state_width_in_bounds { state_width ≤ length state.now }
    ensures { result ≡ cond there (start_of (state_of state.now) pid) 0 }
{
    if there {
        read_start(state, pid) as usize
    } else {
        0
    }
}
