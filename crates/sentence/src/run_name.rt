// The names of the run states.
ghost use Rattle.std.specs.Prelude.{◌+◌, ◌≤◌, length};
ghost use Rattle.lines.specs.Scan.{Put};
ghost use Rattle.sentence.specs.Name.{name_room};
ghost use Rattle.sentence.specs.RunName.{run_name};

use crate::name::put_name;

// The names of 0 to 5.
const RUN_NAMES: [&str; 6] = [
    "running",
    "stepping",
    "stopped",
    "at a breakpoint",
    "ended",
    "passing a breakpoint",
];

// The name of a run state, as `at a breakpoint`; of any other number, as `in run state 99`. The index after it.
pub fn put_run_name(run: u8, from: usize, out: &mut [u8]) -> usize
    requires { from + name_room ≤ length out.old }
    ensures put { Put from (run_name run) out.old result out.new }
    ensures upper_bound { result ≤ from + name_room }
{
    put_name(run, &RUN_NAMES, "in run state ", from, out)
}
