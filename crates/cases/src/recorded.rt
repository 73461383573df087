//! The values that a list gives as numbers.
ghost use Rattle.std.specs.Prelude.{◌≡◌, ℕ, ◌%◌, ◌^◌, ◌<◌, ◌≤◌, ◌↔◌, ⊤, Some, None, Option, is_nan};
ghost use Rattle.std.specs.Prelude.{to_bits, IsTrue, IsSome, IfSome, FitsSigned, if◌then◌else◌};
ghost use Rattle.std.specs.Float.{binary64};
ghost use Rattle.std.specs.Int.{cast_signed, cast_unsigned, w32, w64};
ghost use Rattle.cases.specs.Listed.{AreNumbersOf};

/// A value that a list gives as one number.
pub trait Recorded: Copy {
    ghost number_of: { Self → Option ℕ };

    ghost IsNumber: { ℕ → Type 0 };

    /// Its number; a NaN has none.
    fn number(self) -> Option<u64>
        ensures { result ≡ number_of self };

    /// The value that has a number.
    fn read(number: u64) -> Option<Self>
        ensures value { IfSome result (λ v. number_of v ≡ Some number) }
        ensures some { IsSome result ↔ IsNumber number };
}

impl Recorded for u8 {
    ghost number_of = { λ v. Some v };

    ghost IsNumber = { λ n. n < 2 ^ 8 };

    fn number(self) -> Option<u64> {
        Some(u64::from(self))
    }

    fn read(number: u64) -> Option<Self> {
        u8::try_from(number).ok()
    }
}

impl Recorded for u32 {
    ghost number_of = { λ v. Some v };

    ghost IsNumber = { λ n. n < 2 ^ 32 };

    fn number(self) -> Option<u64> {
        Some(u64::from(self))
    }

    fn read(number: u64) -> Option<Self> {
        u32::try_from(number).ok()
    }
}

impl Recorded for u64 {
    ghost number_of = { λ v. Some v };

    ghost IsNumber = { λ _. ⊤ };

    fn number(self) -> Option<u64> {
        Some(self)
    }

    fn read(number: u64) -> Option<Self> {
        Some(number)
    }
}

impl Recorded for usize {
    ghost number_of = { λ v. Some v };

    ghost IsNumber = { λ _. ⊤ };

    fn number(self) -> Option<u64> {
        Some(self as u64)
    }

    fn read(number: u64) -> Option<Self> {
        Some(number as usize)
    }
}

impl Recorded for i32 {
    ghost number_of = { λ v. Some (cast_unsigned w64 v) };

    ghost IsNumber = { λ n. FitsSigned w32 (cast_signed w64 n) };

    fn number(self) -> Option<u64> {
        Some(i64::from(self).cast_unsigned())
    }

    fn read(number: u64) -> Option<Self> {
        i32::try_from(number.cast_signed()).ok()
    }
}

impl Recorded for f64 {
    ghost number_of = { λ v. if is_nan v then None else Some (to_bits binary64 v) };

    ghost IsNumber = { λ n. n % 2 ^ 63 ≤ 0x7ff0_0000_0000_0000 };

    fn number(self) -> Option<u64> {
        if self.is_nan() {
            None
        } else {
            Some(self.to_bits())
        }
    }

    // Beyond the bits of an infinity, but for its sign, are those of a NaN.
    #[tactic(auto, using(std::proofs::lemmas::Float::not_nan_f64_bits))]
    fn read(number: u64) -> Option<Self> {
        if number % (1 << 63) > 0x7ff0_0000_0000_0000 {
            return None;
        }
        Some(f64::from_bits(number))
    }
}

/// Whether numbers are those of values: as many, and each the same.
pub fn same<T: Recorded>(numbers: &[u64], values: &[T]) -> bool
    ensures { IsTrue result ↔ AreNumbersOf T.number_of numbers.now values.now }
{
    numbers.len() == values.len()
        && numbers
            .iter()
            .zip(values)
            .all(|(number, value)| value.number() == Some(*number))
}
