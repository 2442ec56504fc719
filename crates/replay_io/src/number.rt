// The values that a line has as numbers.
ghost use Rattle.std.specs.Prelude.{◌≡◌, ℕ, cond};

// A value that a line has as a number.
pub trait Number: Copy {
    // The number of a value.
    ghost value: { Self → ℕ };

    // Returns the number.
    fn to_u64(self) -> u64
        ensures told { result ≡ value self };
}

impl Number for u8 {
    ghost value = { λ x. x };

    fn to_u64(self) -> u64 {
        u64::from(self)
    }
}

impl Number for u16 {
    ghost value = { λ x. x };

    fn to_u64(self) -> u64 {
        u64::from(self)
    }
}

impl Number for u32 {
    ghost value = { λ x. x };

    fn to_u64(self) -> u64 {
        u64::from(self)
    }
}

impl Number for u64 {
    ghost value = { λ x. x };

    fn to_u64(self) -> u64 {
        self
    }
}

impl Number for usize {
    ghost value = { λ x. x };

    fn to_u64(self) -> u64 {
        self as u64
    }
}

// A truth value is 0 or 1.
impl Number for bool {
    ghost value = { λ x. cond x 1 0 };

    fn to_u64(self) -> u64 {
        u64::from(self)
    }
}
