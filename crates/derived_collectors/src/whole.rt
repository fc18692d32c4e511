//! Values that are whole numbers.
ghost use Rattle.std.specs.Prelude.{◌≡◌, ℤ, pos};

use spliterator::Value;

/// A value that is a whole number, signed or not, of at most 64 bits.
pub trait Whole: Value {
    // the number
    ghost number: { Self.Content → ℤ };

    /// The number, in 128 bits, which have room for each.
    fn whole(&self) -> i128
        ensures { result ≡ number (Self.content self.now) };
}

impl Whole for i64 {
    ghost number = { λ n. n };

    fn whole(&self) -> i128 {
        i128::from(*self)
    }
}

impl Whole for i32 {
    ghost number = { λ n. n };

    fn whole(&self) -> i128 {
        i128::from(*self)
    }
}

impl Whole for i16 {
    ghost number = { λ n. n };

    fn whole(&self) -> i128 {
        i128::from(*self)
    }
}

impl Whole for i8 {
    ghost number = { λ n. n };

    fn whole(&self) -> i128 {
        i128::from(*self)
    }
}

impl Whole for u64 {
    ghost number = { pos };

    fn whole(&self) -> i128 {
        i128::from(*self)
    }
}

impl Whole for u32 {
    ghost number = { pos };

    fn whole(&self) -> i128 {
        i128::from(*self)
    }
}

impl Whole for u16 {
    ghost number = { pos };

    fn whole(&self) -> i128 {
        i128::from(*self)
    }
}

impl Whole for u8 {
    ghost number = { pos };

    fn whole(&self) -> i128 {
        i128::from(*self)
    }
}

impl Whole for usize {
    ghost number = { pos };

    fn whole(&self) -> i128 {
        *self as i128
    }
}
