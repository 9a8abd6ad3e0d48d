// A count of bytes that are there.
ghost use Rattle.lines.specs.Count.{AtMost};

// So many of the bytes, or all where there are fewer.
pub fn at_most(n: usize, bytes: &[u8]) -> usize
    ensures { AtMost result n bytes.now }
{
    n.min(bytes.len())
}
