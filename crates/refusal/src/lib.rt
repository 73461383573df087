//! Why a call is refused: one enum for all calls, with the number that the plain layer gives.
#![tactic(auto)]

ghost use Rattle.std.specs.Prelude.{◌≡◌, Ok, Err, if◌then◌else◌};
ghost use Rattle.refusal.specs.Refusal.{code_of, number_of};

use std::error::Error;
use std::fmt;

/// Why a call is refused, in the order in which a call makes its tests: it names the first that
/// applies. A refused call writes nothing.
#[derive(Clone, Copy, Debug, PartialEq, Eq, Hash)]
pub enum Refusal {
    /// n is not 1 to 64, r not 1 to 15, or the lattice has more than 4,294,967,294 multisets.
    Sizes = 1,
    /// A slice has a wrong length.
    Length = 2,
    /// A letter is not below n, a blank stands among placed tiles, or sparse letters do not ascend.
    Letter = 3,
    /// Too many tiles, or a size, a rank or a number of rows out of range.
    Range = 4,
    /// An entry or a score is beyond ±536,870,911, or a drop beyond ±16,777,215.
    Entry = 5,
    /// A table of ranks is not its lattice's.
    Ranks = 6,
    /// Scatter is in force, and an entry of sheet is negative, the sheet's first entry is not 0, or
    /// leave_max is not leave's subset maximum.
    Scatter = 7,
    /// num, den or ways is not +0.0 throughout.
    NotClear = 8,
    /// The weight is above 2^53, so that the sums might not be exact.
    Weight = 9,
}

/// The number of a refusal, from 1; 0 stands for an accepted call.
impl From<Refusal> for u8 {
    ghost from_gives = { λ refusal number. number ≡ code_of refusal };

    fn from(refusal: Refusal) -> u8 {
        refusal as u8
    }
}

// By hand (N): for nine texts the crate would take a library.
impl fmt::Display for Refusal {
    fn fmt<W: fmt::Write>(&self, f: &mut fmt::Formatter<W>) -> fmt::Result {
        f.write_str(match self {
            Refusal::Sizes => "the sizes of the lattice are not served",
            Refusal::Length => "a slice of wrong length",
            Refusal::Letter =>
                "a letter that the lattice has not, a blank, or letters that do not ascend",
            Refusal::Range => "too many tiles, or a size, rank or number of rows out of range",
            Refusal::Entry => "an entry, a score or a drop out of range",
            Refusal::Ranks => "a table of ranks that is not its lattice's",
            Refusal::Scatter => "a sheet or a leave_max that scatter does not serve",
            Refusal::NotClear => "num, den or ways is not +0.0",
            Refusal::Weight => "the weight is above 2^53, so that the sums might not be exact",
        })
    }
}

impl Error for Refusal {}

/// Refuses where a test fails.
#[inline]
pub fn ensure(test: bool, refusal: Refusal) -> Result<(), Refusal>
    ensures { result ≡ (if test then Ok tt else Err refusal) }
{
    if test { Ok(()) } else { Err(refusal) }
}

/// The number of a call's answer: 0 where it is accepted.
#[inline]
pub fn number<T: Copy>(answer: Result<T, Refusal>) -> u8
    ensures { result ≡ number_of answer }
{
    match answer {
        Ok(_) => 0,
        Err(refusal) => u8::from(refusal),
    }
}
