//! The tables of ranks that a call takes, judged once.
ghost use Rattle.std.specs.Prelude.{◌≡◌, ◌↔◌, [], IsTrue, IfOk, MatchOption};
ghost use Rattle.std.specs.Option.{ForSome};
ghost use Rattle.refusal.specs.Refusal.{number_of};
ghost use Rattle.lattice.specs.Leaves.{AddTable};
ghost use Rattle.lattice.specs.TableCalls.{LetterTable};
ghost use Rattle.lattice.specs.RankTables.{TableLengths, RanksNumber};

use super::add::tables_are_right;
use super::sizes::Sizes;
use refusal::Refusal;

/// The rank of each leave with one tile more, index by index: the place is the leave's rank times
/// n, plus the letter. And, where it is at hand, the same letter by letter: the place is the letter
/// times the number of leaves, plus the leave's rank.
#[derive(Clone, Copy)]
pub struct Ranks<'a> {
    pub sizes: Sizes,
    pub add: &'a [u32],
    pub by_letter: Option<&'a [u32]>,
    pub ghost by_index: { AddTable sizes.n sizes.r add.now },
    pub ghost letter_by_letter: { ForSome by_letter
        (λ letters. LetterTable sizes.n sizes.r letters.now) },
}

/// Whether tables of so many entries have the lengths that the lattice's have.
// No entries, not an Option (C): the C interface hands an empty slice where there is no letter
// table, and `judge` makes the Option of it.
pub fn have_lengths(sizes: Sizes, add: usize, by_letter: usize) -> bool
    ensures { IsTrue result ↔ TableLengths sizes.n sizes.r add by_letter }
{
    let whole = sizes.entries();
    add == whole && (by_letter == 0 || by_letter == whole)
}

impl<'a> Ranks<'a> {
    /// Judges two tables; no entries letter by letter say that there is no such table.
    pub fn judge(sizes: Sizes, add: &'a [u32], by_letter: &'a [u32]) -> Result<Ranks<'a>, Refusal>
        ensures number { RanksNumber sizes.n sizes.r add.now by_letter.now (number_of result) }
        ensures sizes { IfOk result (λ ranks. ranks.sizes ≡ sizes) }
        ensures by_index { IfOk result (λ ranks. ranks.add.now ≡ add.now) }
        ensures letter_by_letter { IfOk result (λ ranks. MatchOption ranks.by_letter
            (by_letter.now ≡ []) (λ letters. letters.now ≡ by_letter.now)) }
    {
        if !have_lengths(sizes, add.len(), by_letter.len()) {
            return Err(Refusal::Length);
        }
        if !tables_are_right(sizes, add, by_letter) {
            return Err(Refusal::Ranks);
        }
        Ok(Ranks {
            sizes,
            add,
            by_letter: if by_letter.is_empty() {
                None
            } else {
                Some(by_letter)
            },
        })
    }
}
