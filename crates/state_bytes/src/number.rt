// Numbers as bytes, low byte first.
ghost use Rattle.std.specs.Prelude.{◌≡◌, ◌≤◌, length, take};
ghost use Rattle.lists.specs.Buffer.{overlay};
ghost use Rattle.state_bytes.specs.Number.{u32_le, u64_le};

// The first N bytes.
fn first<const N: usize>(bytes: &[u8]) -> [u8; N]
    requires { N ≤ length bytes.now }
    ensures { result ≡ take N bytes.now }
{
    let mut front = [0u8; N];
    front.copy_from_slice(&bytes[..N]);
    front
}

// Four bytes as a number: one load of the machine.
pub(crate) fn u32_le(bytes: &[u8]) -> u32
    requires { 4 ≤ length bytes.now }
    ensures { result ≡ u32_le bytes.now }
{
    u32::from_le_bytes(first(bytes))
}

// Eight bytes as a number, in the same way.
pub(crate) fn u64_le(bytes: &[u8]) -> u64
    requires { 8 ≤ length bytes.now }
    ensures { result ≡ u64_le bytes.now }
{
    u64::from_le_bytes(first(bytes))
}

// Writes N bytes: those of a number are one store of the machine.
pub(crate) fn put<const N: usize>(front: [u8; N], bytes: &mut [u8])
    requires { N ≤ length bytes.old }
    ensures { bytes.new ≡ overlay front.entry bytes.old }
{
    bytes[..N].copy_from_slice(&front);
}
