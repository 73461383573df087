//! The best split of every rack that extends a leave by one tile, all at once: the entries of a
//! run, one for each of those racks. Their ranks follow each other, and so do the ranks of a part
//! with that tile.
ghost use Rattle.std.specs.Prelude.{◌≡◌, ◌≢◌, suc, ◌+◌, ◌-◌, ◌≤◌, ◌<◌, pos, length, get_or, take};
ghost use Rattle.laws.specs.Greatest.{Greatest, Below};
ghost use Rattle.search.specs.Split.{guarded, Bounded, Whole, Worths, worth_at};
ghost use Rattle.runs.specs.Runs.{present};
ghost use Rattle.search.specs.Raised.{Summed, Raised, RunReady};
ghost use Rattle.search.specs.Extended.{Extending, Counted, Extended};

use crate::{EMPTY, Place, size_start};
use runs::Runs;
use whole::UNPLAYABLE;

/// The tile more, alone, at the first entry of a run: no other tally of one tile comes before it.
const TILE_MORE: Place = Place {
    tiles: 1,
    before: 0,
};

/// The greater of an entry and of the sum of two others.
fn raised(entry: i32, a: i32, b: i32) -> i32
    requires { Summed a b }
    ensures { Greatest entry (λ v. v ≡ guarded a b) result }
{
    entry.max(a + b)
}

/// Each entry of a run becomes the greater of itself and of the sum of a's entry as far after `at`,
/// and of b's entry at `to`.
fn raise_run(a: &[i32], b: &[i32], at: usize, to: usize, run: &mut [i32])
    requires entries { at + length run.old ≤ length a.now }
    requires entry { to < length b.now }
    requires a_bound { Bounded 536870911 a.now }
    requires b_bound { Bounded 536870911 b.now }
    ensures { Raised
        (λ j v. v ≡ guarded (get_or a.now (at + j) (pos 0)) (get_or b.now to (pos 0)))
        run.old run.new }
{
    let x = b[to];
    // By index (P): of entries lent through `zip` a proof knows none.
    for (i, entry) in run.iter_mut().enumerate() {
        *entry = raised(*entry, a[at + i], x);
    }
}

/// The same for the worth of splits that are whole, into a part of a's side and one of b's: each
/// entry's has one tally more before the part of a's side.
fn raise_worths(a: &[i32], b: &[i32], n: usize, part: Place, other: Place, run: &mut [i32])
    requires whole { Whole a.now b.now n part.tiles (part.before + (length run.old - 1))
        other.tiles other.before }
    requires some { 0 < length run.old }
    requires a_bound { Bounded 536870911 a.now }
    requires b_bound { Bounded 536870911 b.now }
    ensures { Raised
        (λ j v. v ≡ worth_at a.now b.now n part.tiles (part.before + j) other.tiles other.before)
        run.old run.new }
{
    let at = size_start(n, part.tiles) + part.before;
    let to = size_start(n, other.tiles) + other.before;
    raise_run(a, b, at, to, run);
}

/// Each entry of a run becomes the greatest of itself and of the worth of every split of the runs
/// of tiles, where the letters after them are split already, into a part of a's side and one of
/// b's. At each entry after the run's first, one tally more comes before the part of a's side.
// Beside Tables::best (N): where a split is whole it raises a run, and no best is handed on.
fn raise_splits(a: &[i32], b: &[i32], runs: Runs, part: Place, other: Place, run: &mut [i32])
    requires { RunReady a.now b.now runs.tally.now runs.stop part.tiles part.before
        other.tiles other.before (length run.old) }
    ensures { Raised
        (λ j. Worths a.now b.now (length runs.entry.tally.now)
        (take runs.entry.stop runs.entry.tally.now)
        (length runs.entry.tally.now - runs.entry.stop)
        part.tiles (part.before + j) other.tiles other.before)
        run.old run.new }
{
    match runs.split_last() {
        None => raise_worths(a, b, runs.tally.len(), part, other, run),
        Some((last, before)) => {
            let m = runs.tally.len() - last.stop;
            // A loop of its own (S): the counts of the first letter make no call.
            if before.is_empty() {
                for count in 0..=last.count {
                    let p = part.with(m, count);
                    let q = other.with(m, last.count - count);
                    raise_worths(a, b, runs.tally.len(), p, q, run);
                }
                return;
            }
            for count in 0..=last.count {
                let p = part.with(m, count);
                let q = other.with(m, last.count - count);
                raise_splits(a, b, before, p, q, run);
            }
        }
    }
}

/// Raises the entries of a leave's extensions by the splits that give x of the tiles of its last
/// letter, which stands after the runs, and the tile more, to one side: that of what is played, and
/// then that of what is kept.
#[tactic(auto, using(crate::specs::Extended::stop_some, crate::specs::Extended::stop_inside))]
fn raise_both(sheet: &[i32], leave: &[i32], runs: Runs, x: usize, run: &mut [i32])
    requires extending { Extending sheet.now leave.now runs.tally.now (runs.stop + 1)
        (length run.old) }
    requires inside { x ≤ get_or runs.tally.now runs.stop 0 }
    ensures { Raised (λ j. Counted sheet.now leave.now runs.entry.tally.now
        (runs.entry.stop + 1) j x)
        run.old run.new }
{
    let m = runs.tally.len() - (runs.stop + 1);
    let y = usize::from(runs.tally[runs.stop]) - x;
    let part = TILE_MORE.with(m, x);
    let other = EMPTY.with(m, y);
    raise_splits(sheet, leave, runs, part, other, run);
    raise_splits(leave, sheet, runs, part, other, run);
}

/// The same for every x.
#[tactic(auto, using(crate::specs::Extended::stop_some, crate::specs::Extended::stop_inside))]
fn raise_extensions(sheet: &[i32], leave: &[i32], tally: &[u8], stop: usize, run: &mut [i32])
    requires { Extending sheet.now leave.now tally.now stop (length run.old) }
    ensures { Raised
        (λ j. Below (Counted sheet.now leave.now tally.now stop j)
        (suc (get_or tally.now (stop - 1) 0)))
        run.old run.new }
{
    let runs = Runs::first(tally, stop - 1);
    let count = usize::from(tally[stop - 1]);
    for x in 0..=count {
        raise_both(sheet, leave, runs, x, run);
    }
}

/// The best split of every rack that extends a leave, whose letters end at `stop`: one entry of the
/// run for each, by rank.
// Sheet, leave, tally and stop are handed on with their fact (N): a struct of them would be made
// anew for each leave, since its tally is written between.
pub fn best_extensions(sheet: &[i32], leave: &[i32], tally: &[u8], stop: usize, run: &mut [i32])
    requires { Extending sheet.now leave.now tally.now stop (length run.old) }
    ensures { Extended sheet.now leave.now tally.now run.old run.new }
{
    // Below every worth.
    run.fill(UNPLAYABLE);
    raise_extensions(sheet, leave, tally, stop, run);
}
