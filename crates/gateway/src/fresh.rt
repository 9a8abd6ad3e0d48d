// The state at a fresh start.
ghost use Rattle.std.specs.Prelude.{◌≡◌, not, cond, ◌||◌};
ghost use Rattle.process.specs.Sizes.{valid_size};
ghost use Rattle.state.specs.Fresh.{needed, each_right, sizes_right};
ghost use Rattle.gateway.specs.Called.{started, start_on};

use format::Refusal;
use process::valid_size;
use state::{CAPACITY, size_of};
use state_bytes::{STATE_BYTES, put_fresh_start};

// A process is absent, or has a right size.
fn size_right(there: bool, size: u16) -> bool
    ensures { result ≡ not there || valid_size size }
{
    if there { valid_size(size) } else { true }
}

// Every process that is there has a right size.
fn each_right(there: [bool; 8], sizes: [u16; 8]) -> bool
    ensures { result ≡ each_right there sizes }
{
    for p in 0..8 {
        if !size_right(there[p], size_of(sizes, p)) {
            return false;
        }
    }
    true
}

// How many bytes a process of this size needs, if it is there.
fn size_needed(there: bool, size: u16) -> usize
    ensures { result ≡ cond there size 0 }
{
    if there { size as usize } else { 0 }
}

// How many bytes all processes that are there need together.
fn needed(there: [bool; 8], sizes: [u16; 8]) -> usize
    ensures { result ≡ needed there sizes }
{
    let mut sum = 0;
    for p in 0..8 {
        sum += size_needed(there[p], size_of(sizes, p));
    }
    sum
}

// Every process that is there has a right size, and the memory holds them all.
pub fn sizes_right(there: [bool; 8], sizes: [u16; 8]) -> bool
    ensures { result ≡ sizes_right there sizes }
{
    each_right(there, sizes) && needed(there, sizes) <= CAPACITY
}

// Writes the state in which the given processes are there, each with its size, one after the other in memory; a buffer that is not of a
// state's length is refused with 1, a bad size of a process then there, or more than the memory holds, with 2. The Pup door is at this process, or at
// none where the number is over 7.
pub fn fresh_start(
    there: [bool; 8],
    sizes: [u16; 8],
    door: u8,
    state: &mut [u8],
) -> Result<usize, Refusal>
    ensures { started result state.new ≡ start_on there sizes door state.old }
{
    if state.len() != STATE_BYTES {
        return Err(Refusal::LENT);
    }
    if !sizes_right(there, sizes) {
        return Err(Refusal::STATE);
    }
    put_fresh_start(there, sizes, door, state);
    Ok(0)
}
