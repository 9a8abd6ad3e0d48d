// The sizes that a fresh start gives, one for each process.
ghost use Rattle.std.specs.Prelude.{◌≡◌, ◌<◌, get_or};

// The size of process p. An index into words would multiply the process number.
pub fn size_of(sizes: [u16; 8], p: usize) -> u16
    requires { p < 8 }
    ensures { result ≡ get_or sizes p 0 }
{
    match p {
        0 => sizes[0],
        1 => sizes[1],
        2 => sizes[2],
        3 => sizes[3],
        4 => sizes[4],
        5 => sizes[5],
        6 => sizes[6],
        _ => sizes[7],
    }
}
