//! The records of a list, read a word at a time.
ghost use Rattle.std.specs.Prelude.{◌≡◌, ◌≢◌, ℕ, ◌≤◌, [], ◌∷◌, ◌↔◌, None, Some, IsTrue, IsOk};
ghost use Rattle.std.specs.Prelude.{IfOk, IsSome, IsNone, IfSome, OnErr, Contains, max};
ghost use Rattle.cases.specs.Word.{IsNatural, IsNegated, Says};

use std::alloc::{AllocFailed, Global};
use std::error::Error;
use std::{fmt, mem};

/// How many numbers of a record are kept at most: its first.
pub const MOST_KEPT: usize = 16385;

/// How far a list is read.
#[derive(Debug, Drop)]
pub enum Reading {
    /// The head of a record, or the end of the list, is to come.
    Between,
    /// Numbers of a record came, and so many are wanted; each that is not kept makes these one
    /// fewer.
    Within { wanted: u64, numbers: Vec<u64> },
    /// The list ended: no more words may come.
    Ended,
}

/// Why a text is no list.
#[derive(Clone, Copy, Debug, PartialEq, Eq, Hash)]
pub enum ListError {
    /// It ends before the list does.
    Cut,
    /// A word stands where none may, or is no number.
    Malformed,
    OutOfMemory,
}

impl fmt::Display for ListError {
    fn fmt<W: fmt::Write>(&self, f: &mut fmt::Formatter<W>) -> fmt::Result {
        f.write_str(match self {
            ListError::Cut => "the text is cut: no record 0 ends it",
            ListError::Malformed => "the text is no list beyond its last record",
            ListError::OutOfMemory => "out of memory",
        })
    }
}

impl Error for ListError {}

impl From<AllocFailed<u64>> for ListError {
    fn from(_: AllocFailed<u64>) -> Self {
        ListError::OutOfMemory
    }
}

/// Whether a byte stands between words.
// As in text (N): a list is no listing, and this crate uses none of the library's.
pub fn is_blank(byte: &u8) -> bool
    ensures { IsTrue result ↔ Contains (32 ∷ 9 ∷ 10 ∷ 13 ∷ []) byte.now }
{
    b" \t\n\r".contains(byte)
}

/// The number of a word of digits.
fn natural_of(word: &[u8]) -> Option<u64>
    ensures some { IfSome result (λ n. IsNatural n word.now) }
    ensures none { IsNone result → (n : ℕ) → ¬ IsNatural n word.now }
{
    if !word.first()?.is_ascii_digit() {
        return None;
    }
    str::from_utf8(word).ok()?.parse().ok()
}

/// The number of a word of digits after a minus, as its two's complement.
fn negative_of(word: &[u8]) -> Option<u64>
    ensures some { IfSome result (λ n. IsNegated n word.now) }
    ensures none { IsNone result → (n : ℕ) → ¬ IsNegated n word.now }
{
    let magnitude = natural_of(word)?;
    if magnitude > 1 << 31 {
        return None;
    }
    Some(magnitude.wrapping_neg())
}

/// The number of a word.
fn number_of(word: &[u8]) -> Option<u64>
    ensures some { IfSome result (λ n. Says n word.now) }
    ensures none { IsNone result → (n : ℕ) → ¬ Says n word.now }
{
    match word {
        [b'-', digits @ ..] => negative_of(digits),
        _ => natural_of(word),
    }
}

impl Reading {
    ghost use Rattle.cases.specs.Reading.{Completes, Continues, kept};
    ghost use Rattle.cases.specs.declared.reading.TheConstants.{MOST_KEPT};

    /// Takes the next word of a text (an empty one says nothing), and gives the numbers of the
    /// record that it completes, the first `MOST_KEPT` of a longer one.
    pub fn take(&mut self, alloc: Global, word: &[u8]) -> Result<Option<Vec<u64>>, ListError>
        ensures empty { word.now ≡ [] → (result ≡ Ok None) × (self.new ≡ self.old) }
        ensures record { IfOk result (λ r. IfSome r (Completes self.old word.now)) }
        ensures continues { IfOk result (λ r. IsNone r → word.now ≢ []
            → Continues self.old word.now self.new) }
        ensures between { IfOk result (λ r. IsSome r → self.new ≡ Reading.Between) }
        ensures ended { self.old ≡ Reading.Ended → word.now ≢ []
            → result ≡ Err ListError.Malformed }
        ensures malformed { ((n : ℕ) → ¬ Says n word.now) → word.now ≢ []
            → result ≡ Err ListError.Malformed }
        ensures most { kept self.new ≤ max (kept self.old) MOST_KEPT }
    {
        if word.is_empty() {
            return Ok(None);
        }
        let number = number_of(word).ok_or(ListError::Malformed)?;
        match self {
            Reading::Between => {
                *self = match number {
                    0 => Reading::Ended,
                    1 => return Err(ListError::Malformed),
                    _ if word[0] == b'-' => return Err(ListError::Malformed),
                    _ => Reading::Within {
                        wanted: number,
                        numbers: Vec::new(alloc),
                    },
                };
                Ok(None)
            }
            Reading::Within { wanted, numbers } => {
                if numbers.len() < MOST_KEPT {
                    numbers.push(number)?;
                } else {
                    *wanted = wanted.saturating_sub(1);
                }
                if (numbers.len() as u64) < *wanted {
                    return Ok(None);
                }
                let record = mem::replace(numbers, Vec::new(alloc));
                *self = Reading::Between;
                Ok(Some(record))
            }
            Reading::Ended => Err(ListError::Malformed),
        }
    }

    /// Where the text ends.
    pub fn finish(&self) -> Result<(), ListError>
        ensures ok { IsOk result ↔ (self.now ≡ Reading.Ended) }
        ensures cut { OnErr result (result ≡ Err ListError.Cut) }
    {
        match self {
            Reading::Ended => Ok(()),
            _ => Err(ListError::Cut),
        }
    }
}

#[cfg(test)]
mod tests {
    use super::*;
    use crate::word::push_byte;
    use std::alloc::AllocError;

    #[test]
    fn zeros_before_a_number(rt: HostRuntime) -> Result<(), AllocError> {
        let mut word = Vec::new(rt.alloc());
        push_byte(&mut word, b'-')?;
        for _ in 0..1000 {
            push_byte(&mut word, b'0')?;
        }
        push_byte(&mut word, b'7')?;
        assert_eq!(rt; number_of(&word), Some(18446744073709551609));
        for _ in 0..1000 {
            push_byte(&mut word, b'7')?;
        }
        assert_eq!(rt; number_of(&word), None);
        Ok(())
    }

    #[test]
    fn more_numbers_than_are_kept(rt: HostRuntime) -> Result<(), ListError> {
        let alloc = rt.alloc();
        let mut reading = Reading::Between;
        reading.take(alloc, b"20000")?;
        for _ in 1..20000 {
            assert!(rt; reading.take(alloc, b"5")?.is_none());
        }
        let record = reading.take(alloc, b"6")?;
        assert_eq!(rt; record.map_or(0, |numbers| numbers.len()), MOST_KEPT);
        reading.take(alloc, b"0")?;
        reading.finish()
    }
}
