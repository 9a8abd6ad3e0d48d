// The process of the Pup door: the last byte of a state.
ghost use Rattle.std.specs.Prelude.{◌≡◌, ◌≤◌, length};
ghost use Rattle.state_bytes.specs.State.{door_of};
ghost use Rattle.state_bytes.specs.Widths.{state_width};

use crate::widths::DOOR_AT;

// The process of the Pup door.
pub fn read_door(state: &[u8]) -> u8
    requires { state_width ≤ length state.now }
    ensures { result ≡ door_of state.now }
{
    state[DOOR_AT]
}
