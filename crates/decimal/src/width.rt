// The types of numbers that can be written.
ghost use Rattle.std.specs.Prelude.{◌≡◌, ℕ, ◌≤◌, length};
ghost use Rattle.decimal.specs.Numeral.{numeral};

// A type of numbers, and how many digits its longest numeral has.
pub trait Width: Copy {
    // The number that a value is.
    ghost number: { Self → ℕ };

    // No numeral has more digits than this.
    ghost most_digits: { ℕ };

    // The same number in 64 bits.
    fn wide(self) -> u64
        ensures value { result ≡ number self }
        ensures upper_bound { length (numeral result) ≤ most_digits };
}

impl Width for u8 {
    ghost number = { λ n. n };

    ghost most_digits = { 3 };

    fn wide(self) -> u64 {
        u64::from(self)
    }
}

impl Width for u16 {
    ghost number = { λ n. n };

    ghost most_digits = { 5 };

    fn wide(self) -> u64 {
        u64::from(self)
    }
}

impl Width for u32 {
    ghost number = { λ n. n };

    ghost most_digits = { 10 };

    fn wide(self) -> u64 {
        u64::from(self)
    }
}

impl Width for u64 {
    ghost number = { λ n. n };

    ghost most_digits = { 20 };

    fn wide(self) -> u64 {
        self
    }
}
