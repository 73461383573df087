//! The slices that a record's call is lent: which is one entry short, what they hold, and how long
//! they may be.
ghost use Rattle.std.specs.Prelude.{◌≤◌};

use cases::{Fault, Fields};
use std::alloc::Global;

/// The most entries of a list of tiles.
pub const MOST_TILES: usize = 512;

/// The most entries of a table of values.
pub const MOST_VALUES: usize = 4096;

/// The most entries of a table of ranks.
pub const MOST_RANKS: usize = 16384;

#[derive(Clone, Copy, Debug, PartialEq, Eq)]
pub enum Part {
    Add,
    ByLetter,
    Pool,
    Sheet,
    Leave,
    Best,
    Source,
    Num,
    Den,
    Ways,
    Out,
}

/// The part that is one entry shorter than it should be, at its end.
#[derive(Clone, Copy, Debug, PartialEq, Eq)]
pub struct Short(Option<Part>);

impl Short {
    /// Reads which of the parts of a call it is, counted from 1, or none.
    pub fn read(fields: &mut Fields<'_>, parts: &[Part]) -> Result<Self, Fault> {
        let place = fields.number()?.checked_sub(1);
        Ok(Short(place.and_then(|place| parts.get(place as usize)).copied()))
    }

    /// A part as it is lent.
    pub fn cut<T>(self, part: Part, slice: &[T]) -> &[T] {
        &slice[..self.len_of(part, slice.len())]
    }

    /// How long a part is lent, of a length that it should have.
    pub fn len_of(self, part: Part, len: usize) -> usize
        ensures { result ≤ len }
    {
        if self.0 == Some(part) {
            len.saturating_sub(1)
        } else {
            len
        }
    }
}

/// A slice that holds one value throughout, if it has no more than so many entries.
pub fn filled<T: Copy>(alloc: Global, value: T, len: usize, most: usize) -> Result<Vec<T>, Fault> {
    if len > most {
        return Err(Fault::TooLong);
    }
    Ok(vec![in alloc; value; len]?)
}

/// Makes an entry of a table of ranks one too great: entries are counted from 1, and 0 is none.
pub fn spoil(table: &mut [u32], damage: u64) {
    let Some(place) = damage.checked_sub(1) else {
        return;
    };
    if let Some(entry) = table.get_mut(place as usize) {
        *entry = entry.wrapping_add(1);
    }
}
