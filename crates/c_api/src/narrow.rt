// Numbers of any size, as a caller in C gives them, in the fields of the protocol.
ghost use Rattle.std.specs.Prelude.{◌≡◌};
ghost use Rattle.c_api.specs.Called.{byte_of, kind_of, type_of};

// A number as a byte; 255 stands for every number that a byte has no room for.
pub(crate) fn byte_of(n: u64) -> u8
    ensures { result ≡ byte_of n }
{
    if n < 256 { n as u8 } else { 255 }
}

// The kind of a report; 4, which is none, where ARG1 has no room for its reason.
pub(crate) fn kind_of(kind: u64, reason: u64) -> u64
    ensures { result ≡ kind_of kind reason }
{
    if reason < 65536 { kind } else { 4 }
}

// The type of a packet; 255, which is none, where 32 bits have no room for its ID.
pub(crate) fn type_of(kind: u64, id: u64) -> u8
    ensures { result ≡ type_of kind id }
{
    if id < 4294967296 { byte_of(kind) } else { 255 }
}
