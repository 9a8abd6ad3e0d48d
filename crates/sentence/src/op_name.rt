// The names of the op codes.
ghost use Rattle.std.specs.Prelude.{◌+◌, ◌≤◌, length};
ghost use Rattle.lines.specs.Scan.{Put};
ghost use Rattle.sentence.specs.Name.{name_room};
ghost use Rattle.sentence.specs.OpName.{op_name};

use crate::name::put_name;

// The names of 0 to 16.
const OP_NAMES: [&str; 17] = [
    "NOP",
    "DEBUG",
    "END DEBUG",
    "STOP",
    "DEPOSIT",
    "RESUME",
    "EXAMINE",
    "DEPOSIT STATE VECTOR",
    "BREAK",
    "UNBREAK",
    "SINGLE STEP",
    "PROCEED BPT",
    "CREATE PROCESS",
    "DESTROY PROCESS",
    "WATCH",
    "END WATCH",
    "STATUS",
];

// The name of an op code, as EXAMINE; of any other number, as `op code 99`. The index after it.
pub fn put_op_name(cmd: u8, from: usize, out: &mut [u8]) -> usize
    requires { from + name_room ≤ length out.old }
    ensures put { Put from (op_name cmd) out.old result out.new }
    ensures upper_bound { result ≤ from + name_room }
{
    put_name(cmd, &OP_NAMES, "op code ", from, out)
}
