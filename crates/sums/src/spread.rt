//! The walk over the parts of a leave, for all racks that extend it by one tile: the racks' sum is
//! added at the rank of each part, and each rack's own number at that of the part with the rack's
//! last tile.
ghost use Rattle.std.specs.Prelude.{◌≡◌, ◌∷◌, ◌-◌, ◌≤◌, ◌<◌, suc, length, get_or};
ghost use Rattle.sums.specs.Spread.{add_one, add_each, run, offers, reach, with_last, extended, Ready, Spreads, Added};

use runs::Runs;
use search::{EMPTY, Place, size_start};

/// x is added to the entry at i, if there is one.
#[tactic(auto, unfolding(crate::specs::Spread::add_one))]
fn add_one(xs: &mut [f64], i: usize, x: f64)
    ensures { xs.new ≡ add_one i x xs.old }
{
    if i < xs.len() {
        xs[i] += x;
    }
}

/// The numbers after the first, len of them, are added to the entries from `at` on, as far as there
/// are any.
// All numbers and a length (N): a run's places count from the first number, those of a part that
// begins after it would be others.
fn add_run(xs: &mut [f64], at: usize, len: usize, numbers: &[f64])
    requires numbers { len < length numbers.now }
    requires at { at ≤ 4294967294 }
    ensures { xs.new ≡ add_each (run at len) numbers.now xs.old }
{
    // Written by index (P): of entries lent through `skip` an invariant knows none.
    let stop = xs.len().saturating_sub(at).min(len);
    for (j, &number) in numbers[1..=stop].iter().enumerate() {
        xs[at + j] += number;
    }
}

/// The first number is added to the entry at `part`, and those after it, len of them, to the
/// entries from `racks` on.
#[tactic(auto, using(crate::proofs::Spreading::part_done))]
fn add_part(xs: &mut [f64], part: usize, racks: usize, len: usize, numbers: &[f64])
    requires numbers { len < length numbers.now }
    requires racks { racks ≤ 4294967294 }
    ensures { xs.new ≡ add_each ((part, 0) ∷ run racks len) numbers.now xs.old }
{
    add_one(xs, part, numbers[0]);
    add_run(xs, racks, len, numbers);
}

/// What a leave adds: first the racks' sum, then a number for each rack, `racks` of which are those
/// of a part. The values go to one table, and the ways to the other.
#[derive(Clone, Copy)]
struct Numbers<'a> {
    values: &'a [f64],
    ways: &'a [f64],
    racks: usize,
    ghost in_values: { racks < length values.now },
    ghost in_ways: { racks < length ways.now },
}

impl<'a> Numbers<'a> {
    /// Adds the values to num and the ways to den at each part of a leave: the runs are still to be
    /// chosen from, and the letters after them are in `part`. With a rack's last tile they are in
    /// `rack`, which is that of the first such rack.
    // One walk for both tables (N): two would find each rank twice.
    fn add_at_parts(&self, runs: Runs, part: Place, rack: Place, num: &mut [f64], den: &mut [f64])
        requires part { Ready runs.tally.now runs.stop part.tiles part.before }
        requires rack { Ready runs.tally.now runs.stop rack.tiles rack.before }
        ensures { Added (offers (length runs.entry.tally.now) runs.entry.tally.now
            runs.entry.stop part.tiles part.before rack.tiles rack.before self.now.racks)
            self.now.values.now self.now.ways.now num.old den.old num.new den.new }
    {
        match runs.split_last() {
            None => {
                let n = runs.tally.len();
                let at = size_start(n, part.tiles) + part.before;
                let from = size_start(n, rack.tiles) + rack.before;
                add_part(num, at, from, self.racks, self.values);
                add_part(den, at, from, self.racks, self.ways);
            }
            Some((last, before)) => {
                let m = runs.tally.len() - last.stop;
                for c in 0..=last.count {
                    let p = part.with(m, c);
                    let q = rack.with(m, c);
                    self.add_at_parts(before, p, q, num, den);
                }
            }
        }
    }
}

/// How many racks have one tile more than a part with c tiles of the leave's last letter, of which
/// the leave has count, m letters after it.
fn racks_beyond(m: usize, count: usize, c: usize) -> usize
    requires { m ≤ 64 }
    ensures { result ≡ reach m count c }
{
    if c < count { m } else { m + 1 }
}

/// The parts with c tiles of the leave's last letter, that after the runs.
fn spread_count(
    runs: Runs,
    c: usize,
    values: &[f64],
    ways: &[f64],
    num: &mut [f64],
    den: &mut [f64],
)
    requires spreads { Spreads runs.tally.now (suc runs.stop) (length values.now) }
    requires same { length ways.now ≡ length values.now }
    requires inside { c ≤ get_or runs.tally.now runs.stop 0 }
    ensures { Added (with_last (length runs.entry.tally.now) runs.entry.tally.now
        runs.entry.stop (length runs.entry.tally.now - suc runs.entry.stop) c)
        values.now ways.now num.old den.old num.new den.new }
{
    let m = runs.tally.len() - runs.stop - 1;
    let part = EMPTY.with(m, c);
    let rack = Place {
        tiles: 1,
        before: 0,
    }
    .with(m, c);
    let racks = racks_beyond(m, usize::from(runs.tally[runs.stop]), c);
    let numbers = Numbers {
        values,
        ways,
        racks,
    };
    numbers.add_at_parts(runs, part, rack, num, den);
}

/// Adds the first of the values to num and the first of the ways to den at each part of a leave
/// whose letters end at `stop`, and those after it at the parts of the racks that extend the leave
/// by one tile which have that tile. Where num and den have an entry for each leave alone, the
/// racks themselves are left out.
// Num and den are two slices (C): they are lent so. The values and the ways go beside them alike.
pub fn spread(
    tally: &[u8],
    stop: usize,
    values: &[f64],
    ways: &[f64],
    num: &mut [f64],
    den: &mut [f64],
)
    requires spreads { Spreads tally.now stop (length values.now) }
    requires same { length ways.now ≡ length values.now }
    ensures { Added (extended (length tally.now) tally.now (stop - 1))
        values.now ways.now num.old den.old num.new den.new }
{
    let runs = Runs::first(tally, stop - 1);
    let count = usize::from(tally[stop - 1]);
    for c in 0..=count {
        spread_count(runs, c, values, ways, num, den);
    }
}
