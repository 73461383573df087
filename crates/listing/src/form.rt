//! The numbers of a listing's text: two sizes, then pool counts, then entries of sheet and leave.

ghost use Rattle.std.specs.Prelude.{◌≡◌, ℕ, ◌+◌, ◌*◌, ◌<◌, ◌≤◌, List, [], ◌∷◌, ◌++◌, length, pos};
ghost use Rattle.std.specs.Prelude.{IfOk, IfErr, OnErr, OnOk};
ghost use Rattle.std.proofs.Math.Option.{some};
ghost use Rattle.listing.specs.Sizes.{cells_of};
ghost use Rattle.listing.specs.Fits.{AreBytes, AreEntries};
ghost use Rattle.listing.specs.Slots.{items_of};

use crate::board::{Board, CELLS, cells};
use crate::slots::Slots;
use refusal::Refusal;

// (C): both buffers are fixed memory, since the listing takes no heap.
/// The most letters of a lattice, each with a pool count.
pub const LETTERS: usize = 64;

/// The most entries of sheet and leave together.
pub const ENTRIES: usize = 2 * CELLS;

/// What is taken of a text that may still be accepted.
#[derive(Clone, Copy)]
pub enum Taken {
    /// No number: the number of letters comes first.
    Nothing,
    /// The number of letters; the number of tiles comes next.
    Letters(usize),
    /// Both sizes, and what follows them.
    Sizes(Form),
}

/// Sizes that the listing serves, and what is taken after them: pool counts first, and then
/// entries of sheet and of leave.
#[derive(Clone, Copy)]
pub struct Form {
    pub n: usize,
    pub r: usize,
    /// How many entries sheet and leave have each.
    pub cells: usize,
    pub pool: Slots<u8, LETTERS>,
    pub entries: Slots<i32, ENTRIES>,
    pub ghost sized: { cells ≡ cells_of n r },
    pub ghost served: { 0 < cells },
    pub ghost few: { cells ≤ 512 },
    pub ghost letters: { n ≤ 64 },
    pub ghost counts: { length (items_of pool) ≤ n },
    pub ghost values: { length (items_of entries) ≤ cells * 2 },
    pub ghost in_order: { length (items_of pool) < n → length (items_of entries) ≡ 0 },
    pub ghost bytes: { AreBytes (items_of pool) },
    pub ghost words: { AreEntries (items_of entries) },
}

/// All that a text gives: sizes that the listing serves, a count for each letter, and the entries
/// of sheet and then of leave.
#[derive(Clone, Copy)]
pub struct Given {
    pub form: Form,
    pub ghost counts: { length (items_of form.pool) ≡ form.n },
    pub ghost values: { length (items_of form.entries) ≡ form.cells * 2 },
}

impl Taken {
    ghost use Rattle.listing.specs.Reading.{reading_of, whole, IsRefusedAfter};
    ghost use Rattle.listing.specs.Taken.{numbers_of, reading_as};

    /// Takes one whole number more. What is refused is refused whatever follows, and is not taken.
    #[tactic(auto, using(crate::proofs::Numbers::first_refused, crate::proofs::Numbers::second_refused), unfolding(crate::specs::Taken::numbers_of))]
    pub fn take(&mut self, number: i128) -> Result<(), Refusal>
        ensures ok { OnOk result (numbers_of self.new ≡ numbers_of self.old ++ number ∷ []) }
        ensures err { IfErr result (IsRefusedAfter (numbers_of self.old) (some number)) }
        ensures stays { OnErr result (self.new ≡ self.old) }
    {
        match self {
            Taken::Nothing => *self = Taken::Letters(fitting(number)?),
            Taken::Letters(n) => *self = Taken::Sizes(Form::new(*n, fitting(number)?)?),
            Taken::Sizes(form) => form.take(number)?,
        }
        Ok(())
    }

    /// The text ends here.
    #[tactic(auto, using(crate::proofs::Numbers::nothing_read, crate::proofs::Numbers::one_read), unfolding(crate::specs::Taken::numbers_of))]
    pub fn finish(self) -> Result<Given, Refusal>
        ensures { reading_of (whole (numbers_of self)) ≡ reading_as result }
    {
        match self {
            Taken::Sizes(form) => form.finish(),
            Taken::Nothing | Taken::Letters(_) => Err(Refusal::Length),
        }
    }
}

impl Form {
    ghost use Rattle.listing.specs.Reading.{reading_of, whole, IsRefusedAfter};
    ghost use Rattle.listing.specs.Taken.{form_numbers, reading_as};

    /// A form before any count.
    #[tactic(auto, using(crate::proofs::Numbers::sizes_refused), unfolding(crate::specs::Taken::form_numbers))]
    pub fn new(n: usize, r: usize) -> Result<Form, Refusal>
        ensures ok { IfOk result (λ form. form_numbers form ≡ pos n ∷ pos r ∷ []) }
        ensures err { IfErr result (IsRefusedAfter (pos n ∷ []) (some (pos r))) }
    {
        Ok(Form {
            n,
            r,
            cells: cells(n, r)?,
            pool: Slots::new(),
            entries: Slots::new(),
        })
    }

    /// Takes one whole number more: a pool count where a letter has none yet, and else an entry.
    /// What is refused is not taken.
    #[tactic(auto, using(crate::proofs::Numbers::count_refused, crate::proofs::Numbers::entry_refused, crate::proofs::Numbers::extra_refused), unfolding(crate::specs::Taken::form_numbers))]
    pub fn take(&mut self, number: i128) -> Result<(), Refusal>
        ensures ok { OnOk result (form_numbers self.new ≡ form_numbers self.old ++ number ∷ []) }
        ensures err { IfErr result (IsRefusedAfter (form_numbers self.old) (some number)) }
        ensures stays { OnErr result (self.new ≡ self.old) }
    {
        if self.pool.len() < self.n {
            self.pool.push(fitting(number)?);
        } else if self.entries.len() < self.cells * 2 {
            self.entries.push(fitting(number)?);
        } else {
            return Err(Refusal::Length);
        }
        Ok(())
    }

    /// The text ends here: it lacks no number.
    #[tactic(auto, using(crate::proofs::Numbers::form_lacks, crate::proofs::Numbers::form_full))]
    pub fn finish(self) -> Result<Given, Refusal>
        ensures { reading_of (whole (form_numbers self)) ≡ reading_as result }
    {
        if self.pool.len() < self.n || self.entries.len() < self.cells * 2 {
            return Err(Refusal::Length);
        }
        Ok(Given { form: self })
    }
}

impl Given {
    ghost use Rattle.listing.specs.Listing.{board_of};
    ghost use Rattle.listing.specs.Board.{board_lent};
    ghost use Rattle.listing.specs.Taken.{body_of};

    /// The board that a text gives.
    pub fn board(&self) -> Board<'_>
        ensures { board_lent result ≡ board_of self.now.form.n self.now.form.r (body_of self.now) }
    {
        let form = &self.form;
        let (sheet, leave) = form.entries.as_slice().split_at(form.cells);
        Board {
            n: form.n,
            r: form.r,
            pool: form.pool.as_slice(),
            sheet,
            leave,
        }
    }
}

/// A number as another type, where it fits that.
fn fitting<T: TryFrom<i128>>(number: i128) -> Result<T, Refusal>
where
    T::Error: Drop,
    ensures ok { IfOk result (λ value. T.try_from_gives number (Ok value)) }
    ensures err { IfErr result (λ refusal. (refusal ≡ Refusal.Length)
        × (error : T.Error) × T.try_from_gives number (Err error)) }
{
    T::try_from(number).map_err(|_| Refusal::Length)
}
