//! The racks that extend a leave by one tile, no earlier than its last letter: they stand side by
//! side in rank order, and each rack is one of them.
#![tactic(auto)]

ghost use Rattle.std.specs.Prelude.{◌≡◌, true, suc, ◌-◌, ◌≤◌, ◌<◌, length};
ghost use Rattle.lattice.specs.Answers.{served};
ghost use Rattle.lattice.specs.Tally.{total, start, rank_of};
ghost use Rattle.extensions.specs.Extensions.{stop_of, extension};
ghost use Rattle.extensions.specs.Racks.{Leave, Walking, Onward};
ghost use Rattle.runs.specs.Runs.{present};

use lattice::{rank_within, unrank_within};
use order::next_tally;
use runs::{letters_of, next_run};

/// A leave's letters, where they end, and the rank of the first rack that extends it: that with one
/// tile more of the last letter of all.
// The word beside its tally (N): `Runs` borrows the tally, which changes from leave to leave.
#[derive(Clone, Copy, Debug, PartialEq, Eq)]
pub struct Extended {
    pub word: u64,
    pub stop: usize,
    pub first: usize,
}

impl Extended {
    /// How many racks extend the leave: one for each of n letters from its last one on.
    #[inline]
    pub fn racks(self, n: usize) -> usize
        requires inside { self.stop ≤ n }
        requires letters { n ≤ 64 }
        ensures { result ≡ suc (n - self.stop) }
    {
        n - self.stop + 1
    }
}

// The letters up to the last one that a tally has, and at least one.
fn stop_of(tally: &[u8]) -> usize
    requires { 0 < length tally.now }
    ensures { result ≡ stop_of tally.now }
{
    match tally.iter().rposition(|&count| count != 0) {
        Some(last) => last + 1,
        None => 1,
    }
}

/// The rank of a tally that has one.
pub fn rank_of(r: usize, tally: &[u8]) -> usize
    requires served { served (length tally.now) r ≡ true }
    requires tiles { total tally.now ≤ r }
    ensures { result ≡ rank_of (length tally.now) tally.now }
{
    rank_within(r, tally).unwrap() as usize
}

// The rank of a leave with one tile more of the last letter of all.
fn first_rank(r: usize, tally: &mut [u8]) -> usize
    requires served { served (length tally.old) r ≡ true }
    requires tiles { suc (total tally.old) ≡ r }
    ensures rank { result ≡ rank_of (length tally.old) (extension tally.old 0) }
    ensures same { tally.new ≡ tally.old }
{
    let last = tally.len() - 1;
    let count = tally[last];
    tally[last] = count + 1;
    let rank = rank_of(r, tally);
    tally[last] = count;
    rank
}

/// The leave at a rank, of one tile less than a rack, unranked into a slice, and the racks that
/// extend it.
pub fn extend_at(r: usize, rank: usize, tally: &mut [u8]) -> Extended
    requires served { served (length tally.old) r ≡ true }
    requires from { start (length tally.old) (r - 1) ≤ rank }
    requires below { rank < start (length tally.old) r }
    ensures leave { Leave (length tally.old) r rank tally.new result.stop result.first }
    ensures word { result.word ≡ present tally.new }
{
    unrank_within(r, rank as u64, tally);
    Extended {
        word: letters_of(tally),
        stop: stop_of(tally),
        first: first_rank(r, tally),
    }
}

/// The leave that comes next, and the racks that extend it: they follow those of the leave before.
pub fn next_leave(e: Extended, tally: &mut [u8]) -> Extended
    requires walking { Walking tally.old e.stop e.first }
    requires word { e.word ≡ present tally.old }
    ensures onward { Onward tally.old e.stop e.first tally.new result.stop result.first }
    ensures word { result.word ≡ present tally.new }
{
    let n = tally.len();
    let word = next_tally(tally, e.word);
    Extended {
        word,
        stop: next_run(tally, word, n).stop,
        first: e.first + e.racks(n),
    }
}
