//! The judges of what a call is given, in the order of its refusals.
ghost use Rattle.std.specs.Prelude.{◌≡◌, ◌↔◌, true, ◌<◌, ◌≤ℤ◌, pos, length, All, IsTrue, IfOk};
ghost use Rattle.refusal.specs.Refusal.{number_of};
ghost use Rattle.lattice.specs.Tally.{lattice};
ghost use Rattle.fused.specs.Answer.{lent, in_force, ReadLengths, LentLengths, WordSheet, Words, Cleared, FusedNumber};
ghost use Rattle.fused.specs.Judged.{letters_in, input_of};

use crate::board::Board;
use lattice::rank_tables::{Ranks, have_lengths};
use lattice::sizes::Sizes;
use maxima::is_subset_max;
use refusal::Refusal;
use sums::weight::{all_clear, largest, within_weight};

/// The slices that a call writes, as they are on entry: the sums at the leaves, each full rack's
/// ways, and the bests.
#[derive(Clone, Copy)]
pub struct Written<'a> {
    pub num: &'a [f64],
    pub den: &'a [f64],
    pub ways: &'a [f64],
    pub maxsheet: &'a [i32],
}

/// The largest entry of sheet and leave.
// (N): search and blanks ask the same of an entry and of a score, each in one place.
const LARGEST: u64 = 536_870_911;

/// Whether leave_max, where it is read, has the lattice's length.
#[tactic(auto, using(crate::proofs::Judges::whole))]
fn leave_max_fits(sizes: Sizes, board: &Board) -> bool
    ensures { IsTrue result ↔ (in_force board.now.mode ≡ true
        → length board.now.leave_max.now ≡ length (lattice sizes.n sizes.r)) }
{
    !board.mode.in_force() || board.leave_max.len() == sizes.len
}

/// Whether the slices that are read have the lattice's lengths.
#[tactic(auto, using(crate::proofs::Judges::whole))]
fn read_fit(sizes: Sizes, add: &[u32], by_letter: &[u32], board: &Board) -> bool
    ensures { IsTrue result ↔ ReadLengths (input_of sizes add.now by_letter.now board.now) }
{
    board.sheet.len() == sizes.len
        && board.leave.len() == sizes.len
        && board.unseen.len() == sizes.n
        && leave_max_fits(sizes, board)
        && have_lengths(sizes, add.len(), by_letter.len())
}

/// Whether the slices that are written have those lengths.
#[tactic(auto, using(crate::proofs::Judges::whole, crate::proofs::Judges::racks_are, crate::proofs::Judges::leaves_fit))]
fn written_fit(sizes: Sizes, written: &Written) -> bool
    ensures { IsTrue result ↔ LentLengths sizes.n sizes.r
        (lent written.now.num.now written.now.den.now written.now.ways.now
        written.now.maxsheet.now) }
{
    written.num.len() == sizes.leaves
        && written.den.len() == sizes.leaves
        && written.ways.len() == sizes.len - sizes.leaves
        && written.maxsheet.len() == sizes.len
}

/// Whether no entry is negative.
fn none_negative(entries: &[i32]) -> bool
    ensures { IsTrue result ↔ All (λ entry. pos 0 ≤ℤ entry) entries.now }
{
    entries.iter().all(|&entry| 0 <= entry)
}

/// Whether no entry is negative, and that of no tiles is 0.
#[tactic(auto, using(crate::proofs::Judges::words_of, crate::proofs::Judges::of_words))]
fn word_sheet(sheet: &[i32]) -> bool
    requires { 0 < length sheet.now }
    ensures { IsTrue result ↔ WordSheet sheet.now }
{
    sheet[0] <= 0 && none_negative(sheet)
}

/// Whether scatter, where it is in force, has a sheet and a leave_max that it can start from.
#[tactic(auto, using(crate::proofs::Judges::whole))]
fn scatters(sizes: Sizes, board: &Board) -> bool
    requires in_sheet { length board.now.sheet.now ≡ sizes.len }
    requires in_leave { length board.now.leave.now ≡ sizes.len }
    requires in_leave_max { in_force board.now.mode ≡ true
        → length board.now.leave_max.now ≡ sizes.len }
    ensures { IsTrue result ↔ (in_force board.now.mode ≡ true
        → Words sizes.n sizes.r board.now.sheet.now board.now.leave.now board.now.leave_max.now) }
{
    !board.mode.in_force()
        || word_sheet(board.sheet) && is_subset_max(sizes, board.leave, board.leave_max)
}

/// Whether the sums and the ways are all +0.0.
fn cleared(written: &Written) -> bool
    ensures { IsTrue result
        ↔ Cleared written.now.num.now written.now.den.now written.now.ways.now }
{
    all_clear(written.num) && all_clear(written.den) && all_clear(written.ways)
}

/// Judges what a call is given, in the order of the refusals, and gives the tables of ranks.
// add and by_letter stand alone up to here (N): `Ranks` says of them what is judged first.
pub fn judge<'a>(
    sizes: Sizes,
    add: &'a [u32],
    by_letter: &'a [u32],
    board: &Board,
    written: &Written,
) -> Result<Ranks<'a>, Refusal>
    ensures number { FusedNumber (input_of sizes add.now by_letter.now board.now)
        (lent written.now.num.now written.now.den.now written.now.ways.now
        written.now.maxsheet.now) (number_of result) }
    ensures sizes { IfOk result (λ ranks. ranks.sizes ≡ sizes) }
    ensures by_index { IfOk result (λ ranks. ranks.add.now ≡ add.now) }
    ensures letter_by_letter { IfOk result (λ ranks. letters_in ranks ≡ by_letter.now) }
{
    if !read_fit(sizes, add, by_letter, board) {
        return Err(Refusal::Length);
    }
    if !written_fit(sizes, written) {
        return Err(Refusal::Length);
    }
    let most_sheet = largest(board.sheet);
    let most_leave = largest(board.leave);
    if LARGEST < most_sheet || LARGEST < most_leave {
        return Err(Refusal::Entry);
    }
    let ranks = Ranks::judge(sizes, add, by_letter)?;
    if !scatters(sizes, board) {
        return Err(Refusal::Scatter);
    }
    if !cleared(written) {
        return Err(Refusal::NotClear);
    }
    if !within_weight(board.unseen, sizes.r, most_sheet, most_leave) {
        return Err(Refusal::Weight);
    }
    Ok(ranks)
}
