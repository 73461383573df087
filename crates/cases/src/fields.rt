//! The numbers of a record, taken one after the other and compared.
ghost use Rattle.std.specs.Prelude.{◌≡◌, ℕ, ◌≤◌, ◌↔◌, [], ◌∷◌, ◌++◌, Some, length, vec_len, take};
ghost use Rattle.std.specs.Prelude.{drop, IsTrue, IsOk, IfOk, OnErr};
ghost use Rattle.cases.specs.Listed.{AreNumbersOf};

use crate::fault::Fault;
use crate::recorded::{Recorded, same};
use std::alloc::Global;

/// What is left to read of the numbers of a record.
#[derive(Clone, Copy, Debug, PartialEq, Eq)]
pub struct Fields<'a> {
    pub left: &'a [u64],
}

impl<'a> Fields<'a> {
    /// The numbers of a record, of which none is read yet.
    pub fn new(numbers: &'a [u64]) -> Self
        ensures { result.left.now ≡ numbers.now }
    {
        Fields { left: numbers }
    }

    pub fn is_empty(&self) -> bool
        ensures { IsTrue result ↔ (self.now.left.now ≡ []) }
    {
        self.left.is_empty()
    }

    /// The next number; an error reads none.
    pub fn number(&mut self) -> Result<u64, Fault>
        ensures ok { IfOk result (λ n. self.old.left.now ≡ n ∷ self.new.left.now) }
        ensures err { OnErr result (self.old.left.now ≡ []) }
        ensures malformed { OnErr result (result ≡ Err Fault.Malformed) }
    {
        let (number, rest) = self.left.split_first().ok_or(Fault::Malformed)?;
        self.left = rest;
        Ok(*number)
    }

    /// The next number, as a value. A number that no value has is read nonetheless.
    pub fn read<T: Recorded>(&mut self) -> Result<T, Fault>
        ensures ok { IfOk result (λ v. (n : ℕ) × (T.number_of v ≡ Some n)
            × (self.old.left.now ≡ n ∷ self.new.left.now)) }
        ensures malformed { OnErr result (result ≡ Err Fault.Malformed) }
    {
        T::read(self.number()?).ok_or(Fault::Malformed)
    }

    /// The next so many numbers; an error reads none.
    pub fn take(&mut self, len: usize) -> Result<&'a [u64], Fault>
        ensures ok { IfOk result (λ first. (length first.now ≡ len)
            × (self.old.left.now ≡ first.now ++ self.new.left.now)) }
        ensures enough { IsOk result ↔ (len ≤ length self.old.left.now) }
        ensures err { OnErr result (self.new.left.now ≡ self.old.left.now) }
    {
        let (first, rest) = self.left.split_at_checked(len).ok_or(Fault::Malformed)?;
        self.left = rest;
        Ok(first)
    }

    /// The numbers that follow their length. An error may have read the length.
    pub fn counted(&mut self) -> Result<&'a [u64], Fault>
        ensures ok { IfOk result (λ list. self.old.left.now
            ≡ length list.now ∷ list.now ++ self.new.left.now) }
    {
        let len: usize = self.read()?;
        self.take(len)
    }

    /// The values that follow their length, if these are not more than `most`. An error may have
    /// read some of them.
    pub fn list<T: Recorded>(&mut self, alloc: Global, most: usize) -> Result<Vec<T>, Fault>
        ensures within { IfOk result (λ values. vec_len values ≤ most) }
    {
        let numbers = self.counted()?;
        if numbers.len() > most {
            return Err(Fault::TooLong);
        }
        let mut values = Vec::with_capacity(alloc, numbers.len())?;
        for number in numbers {
            values.push(T::read(*number).ok_or(Fault::Malformed)?)?;
        }
        Ok(values)
    }

    /// Whether the next number is that of a value.
    pub fn is<T: Recorded>(&mut self, value: T) -> bool
        ensures yes { IsTrue result → (n : ℕ) × (T.number_of value ≡ Some n)
            × (self.old.left.now ≡ n ∷ self.new.left.now) }
    {
        match self.number() {
            Ok(number) => value.number() == Some(number),
            Err(_) => false,
        }
    }

    /// Whether the next numbers are those of values.
    pub fn are<T: Recorded>(&mut self, values: &[T]) -> bool
        ensures yes { IsTrue result ↔ AreNumbersOf T.number_of
            (take (length values.now) self.old.left.now) values.now }
        ensures rest { IsTrue result
            → self.new.left.now ≡ drop (length values.now) self.old.left.now }
    {
        match self.take(values.len()) {
            Ok(numbers) => same(numbers, values),
            Err(_) => false,
        }
    }
}
