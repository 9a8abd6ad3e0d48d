// Words and bytes as units of their own: a packet counts words, a process bytes.
ghost use Rattle.std.specs.Prelude.{◌≡◌};
ghost use Rattle.packets.specs.Units.{first_byte, second_byte, in_bytes, holds};

// The number of a word of a process.
#[derive(Clone, Copy)]
pub struct WordAddress(pub u16);

// So many words.
#[derive(Clone, Copy)]
pub struct WordCount(pub u16);

// The number of a byte of a process.
#[derive(Clone, Copy)]
pub struct ByteAddress(pub usize);

// So many bytes.
#[derive(Clone, Copy)]
pub struct ByteCount(pub usize);

impl WordAddress {
    // Its low byte.
    pub fn first_byte(self) -> ByteAddress
        ensures { result ≡ first_byte self }
    {
        let a = self.0 as usize;
        ByteAddress(a + a)
    }

    // Its high byte.
    pub fn second_byte(self) -> ByteAddress
        ensures { result ≡ second_byte self }
    {
        let a = self.0 as usize;
        ByteAddress(a + a + 1)
    }
}

impl WordCount {
    // So many words in bytes.
    pub fn in_bytes(self) -> ByteCount
        ensures { result ≡ in_bytes self }
    {
        let n = self.0 as usize;
        ByteCount(n + n)
    }
}

impl ByteCount {
    // Whether a process of this size holds so many words from this address on.
    pub fn holds(self, at: WordAddress, count: WordCount) -> bool
        ensures { result ≡ holds self at count }
    {
        let first = at.first_byte();
        let length = count.in_bytes();
        first.0 + length.0 <= self.0
    }
}
