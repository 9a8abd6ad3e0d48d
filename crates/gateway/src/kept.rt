// The record of a process, put back into the bytes of the state.
ghost use Rattle.std.specs.Prelude.{◌≡◌, cond, ◌<◌, length};
ghost use Rattle.rules.specs.Isolation.{is_granted};
ghost use Rattle.state_bytes.specs.Widths.{state_width};
ghost use Rattle.state_bytes.specs.State.{with_process_bytes};

use format::Refusal;
use process::Process;
use state_bytes::put_process_at;

// Puts the record of process pid into its bytes, if the call was granted.
pub(crate) fn keep(outcome: Result<usize, Refusal>, process: Process, pid: usize, state: &mut [u8])
    requires pid_bound { pid < 8 }
    requires state_len { length state.old ≡ state_width }
    ensures { state.new ≡ cond (is_granted outcome) (with_process_bytes pid «process» state.old) state.old }
{
    if let Ok(_) = outcome {
        put_process_at(process, pid, state);
    }
}
