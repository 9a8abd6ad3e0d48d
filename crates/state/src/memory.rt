// The one memory that all processes lie in.
ghost use Rattle.std.specs.Prelude.{◌≡◌, ◌+◌, ◌≤◌, length};
ghost use Rattle.state.specs.Layout.{closed};

// How many bytes of memory are lent.
pub const CAPACITY: usize = 16384;

// Takes `count` bytes out of the memory: those above them, up to `end`, move down, and as many bytes before `end` are zeroed.
pub fn close(memory: &mut [u8], start: usize, count: usize, end: usize)
    requires { (start + count ≤ end) × (end ≤ length memory.old) }
    ensures { memory.new ≡ closed start count end memory.old }
{
    memory.copy_within(start + count..end, start);
    memory[end - count..end].fill(0);
}
