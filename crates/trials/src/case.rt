ghost use Rattle.std.specs.Prelude.{◌≡◌, ◌<◌, ◌≤◌, ◌↔◌, Ok, length};
ghost use Rattle.trials.specs.declared.case.TheConstants.{MOST_NUMBERS};
ghost use Rattle.trials.specs.Record.{GivesList, NamesNoCall};

use crate::answer;
use crate::lent::{MOST_RANKS, MOST_TILES, MOST_VALUES};
use crate::outcome::Outcome;
use cases::{Call, Fault, Fields, MOST_KEPT, Recorded};
use lattice::Lattice;
use std::alloc::{AllocError, Global};

/// The most numbers of a record: a longer one differs.
pub const MOST_NUMBERS: usize = 16384;

// Of a longer record enough is kept to tell.
const _: () = prove!(MOST_NUMBERS < MOST_KEPT);

/// What the records of a list set: the lattice, the pool, the sheet, the leave, the best table, and
/// the lattice's table of ranks with the same letter by letter. Both are empty where the sizes are
/// refused, and where the table has more than `MOST_RANKS` entries.
#[derive(Drop)]
pub struct Case {
    pub(crate) alloc: Global,
    pub(crate) lattice: Lattice,
    pub(crate) pool: Vec<u8>,
    pub(crate) sheet: Vec<i32>,
    pub(crate) leave: Vec<i32>,
    pub(crate) best: Vec<i32>,
    pub(crate) add: Vec<u32>,
    pub(crate) by_letter: Vec<u32>,
}

impl Case {
    /// Nothing is set, and the lattice is one whose sizes are refused.
    pub fn new(alloc: Global) -> Self {
        Case {
            alloc,
            lattice: Lattice { n: 0, r: 0 },
            pool: Vec::new(alloc),
            sheet: Vec::new(alloc),
            leave: Vec::new(alloc),
            best: Vec::new(alloc),
            add: Vec::new(alloc),
            by_letter: Vec::new(alloc),
        }
    }

    /// Runs a record by its numbers: that of a call, a source of 0 or 1, inputs and answers.
    pub fn run(&mut self, numbers: &[u64]) -> Result<Outcome, AllocError>
        ensures long { MOST_NUMBERS < length numbers.now → result ≡ Ok Outcome.Differed }
        ensures not_served { (result ≡ Ok Outcome.NotServed)
            ↔ ((length numbers.now ≤ MOST_NUMBERS) × NamesNoCall numbers.now) }
        ensures set { result ≡ Ok Outcome.Set → GivesList numbers.now }
        ensures agreed { result ≡ Ok Outcome.Agreed → ¬ GivesList numbers.now }
    {
        if numbers.len() > MOST_NUMBERS {
            return Ok(Outcome::Differed);
        }
        let [number, 0 | 1, rest @ ..] = numbers else {
            return Ok(Outcome::Differed);
        };
        let Ok(call) = Call::try_from(*number) else {
            return Ok(Outcome::NotServed);
        };
        match self.agrees(call, Fields::new(rest)) {
            Ok(true) if call.is_list() => Ok(Outcome::Set),
            Ok(true) => Ok(Outcome::Agreed),
            Ok(false) | Err(Fault::Malformed | Fault::TooLong) => Ok(Outcome::Differed),
            Err(Fault::OutOfMemory) => Err(AllocError),
        }
    }

    /// Whether the answers of a call are those of its record, or a list could be set.
    fn agrees(&mut self, call: Call, fields: Fields<'_>) -> Result<bool, Fault> {
        match call {
            Call::Sizes => self.set_sizes(fields),
            Call::Pool => set_list(&mut self.pool, self.alloc, fields, MOST_TILES),
            Call::Sheet => set_list(&mut self.sheet, self.alloc, fields, MOST_VALUES),
            Call::Leave => set_list(&mut self.leave, self.alloc, fields, MOST_VALUES),
            Call::Best => set_list(&mut self.best, self.alloc, fields, MOST_VALUES),
            Call::SizeStart => self.size_start(fields),
            Call::Rank => self.rank(fields),
            Call::RankSparse => self.rank_sparse(fields),
            Call::RankBytes => self.rank_bytes(fields),
            Call::UnrankInto => self.unrank_into(fields),
            Call::PascalRows => self.pascal_rows(fields),
            Call::FillAdd => self.fill_add(fields),
            Call::FillByLetter => self.fill_by_letter(fields),
            Call::Letter => self.letter(fields),
            Call::NaiveBestEquity => self.naive_best_equity(fields),
            Call::BestEquityOf => self.best_equity_of(fields),
            Call::BestEquityTable => self.best_equity_table(fields),
            Call::BestKeepOf => self.best_keep_of(fields),
            Call::SubsetMaxTransform => self.subset_max_transform(fields),
            Call::ApportionTable => self.apportion_table(fields),
            Call::ApportionFused => self.apportion_fused(fields),
            Call::DynamicLeaveValue => self.dynamic_leave_value(fields),
            Call::RecordBlankVariants => self.record_blank_variants(fields),
        }
    }

    /// How many multisets the lattice has, 0 where its sizes are refused.
    pub(crate) fn len(&self) -> usize {
        answer::size(self.lattice.len())
    }

    /// How many of them are leaves, 0 where the sizes are refused.
    pub(crate) fn leaves(&self) -> usize {
        answer::size(self.lattice.full_rack_start())
    }

    // n, r; no, length, full rack start.
    fn set_sizes(&mut self, mut fields: Fields<'_>) -> Result<bool, Fault> {
        self.lattice = Lattice {
            n: fields.read().unwrap_or(0),
            r: fields.read().unwrap_or(0),
        };
        let is_made = self.make_tables()?;
        let (number, len) = answer::rank(self.lattice.len());
        let (start_number, start) = answer::rank(self.lattice.full_rack_start());
        Ok(
            is_made
                && number == start_number
                && fields.is(number)
                && fields.is(len)
                && fields.is(start)
                && fields.is_empty(),
        )
    }

    /// Makes the tables of ranks of the lattice, and says whether their calls are served.
    fn make_tables(&mut self) -> Result<bool, Fault> {
        let len = match self.leaves().checked_mul(self.lattice.n) {
            Some(len) if len <= MOST_RANKS => len,
            _ => 0,
        };
        self.add = vec![in self.alloc; 0; len]?;
        self.by_letter = vec![in self.alloc; 0; len]?;
        Ok(
            len == 0
                || self.lattice.fill_add(&mut self.add).is_ok()
                    && self
                        .lattice
                        .fill_by_letter(&self.add, &mut self.by_letter)
                        .is_ok(),
        )
    }
}

/// Sets a list to the values that a record gives; it is empty where the record is wrong.
fn set_list<T: Recorded>(
    list: &mut Vec<T>,
    alloc: Global,
    mut fields: Fields<'_>,
    most: usize,
) -> Result<bool, Fault> {
    list.clear();
    let values = fields.list(alloc, most)?;
    if !fields.is_empty() {
        return Ok(false);
    }
    *list = values;
    Ok(true)
}
