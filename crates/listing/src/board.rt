//! A board, and its census.

ghost use Rattle.std.specs.Prelude.{◌≡◌, ◌<◌, ◌≤◌, length, IfOk, IfErr, OnOk};
ghost use Rattle.listing.specs.Sizes.{cells_of};

use lattice::Lattice;
use refusal::Refusal;
use search::calls::best_equity_table;
use sums::weight::{largest, within_weight};
use table_sums::apportion_table;

/// A lattice of n letters and racks of r tiles that the listing serves, a pool count for each
/// letter, and an entry of sheet and of leave for each multiset.
#[derive(Clone, Copy, Debug)]
pub struct Board<'a> {
    pub n: usize,
    pub r: usize,
    pub pool: &'a [u8],
    pub sheet: &'a [i32],
    pub leave: &'a [i32],
    pub ghost served: { 0 < cells_of n r },
    pub ghost few: { cells_of n r ≤ 512 },
    pub ghost counts: { length pool.now ≡ n },
    pub ghost sheets: { length sheet.now ≡ cells_of n r },
    pub ghost leaves: { length leave.now ≡ cells_of n r },
}

impl Board<'_> {
    ghost use Rattle.lattice.specs.Tally.{start};
    ghost use Rattle.sums.specs.Weight.{Clear};
    ghost use Rattle.listing.specs.Listing.{Census};
    ghost use Rattle.listing.specs.Board.{board_lent};

    fn lattice(self) -> Lattice
        ensures n { result.n ≡ self.entry.n }
        ensures r { result.r ≡ self.entry.r }
    {
        Lattice {
            n: self.n,
            r: self.r,
        }
    }

    /// Fills num and den, which are +0.0, with the sums and counts of the leaves; and best with the
    /// best of each full rack.
    // (C): the three tables stay slices, lent by the caller: the listing takes no heap.
    pub fn census(self, best: &mut [i32], num: &mut [f64], den: &mut [f64]) -> Result<(), Refusal>
        requires bests { length best.old ≡ cells_of self.n self.r }
        requires nums { length num.old ≡ cells_of self.n self.r }
        requires dens { length den.old ≡ cells_of self.n self.r }
        requires num_clear { Clear num.old }
        requires den_clear { Clear den.old }
        ensures { Census (board_lent self.entry) best.old num.old den.old result
            best.new num.new den.new }
    {
        best_equity_table(self.lattice(), self.sheet, self.leave, best)?;
        if !within_weight(self.pool, self.r, largest(self.sheet), largest(self.leave)) {
            return Err(Refusal::Weight);
        }
        apportion_table(self.lattice(), best, self.pool, num, den)
    }

    /// How many leaves there are.
    pub fn leaves(self) -> u32
        ensures { result ≡ start self.entry.n self.entry.r }
    {
        self.lattice().full_rack_start().unwrap()
    }
}

/// The longest lattice that the listing serves.
// (C): the tables of a board are arrays of this length, since the listing takes no heap.
pub const CELLS: usize = 512;

/// The length of a lattice that the listing serves, which is at most 512.
#[tactic(auto, using(crate::proofs::Cells::cells_refused, crate::proofs::Cells::cells_letters))]
pub fn cells(n: usize, r: usize) -> Result<usize, Refusal>
    ensures ok { IfOk result (λ cells. (cells ≡ cells_of n r) × (0 < cells) × (cells ≤ 512)) }
    ensures letters { OnOk result (n ≤ 64) }
    ensures err { IfErr result (λ refusal. (refusal ≡ Refusal.Sizes) × (cells_of n r ≡ 0)) }
{
    match (Lattice { n, r }).len() {
        Ok(len) if len as usize <= CELLS => Ok(len as usize),
        _ => Err(Refusal::Sizes),
    }
}
