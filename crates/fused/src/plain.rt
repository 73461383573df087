//! The sums at the leaves without a fold: the drawable full racks that extend a leave by one tile
//! are added together to the leaves below them.
ghost use Rattle.std.specs.Float.{binary64};
ghost use Rattle.std.specs.Float.Ieee.{add, of_bits};
ghost use Rattle.std.specs.Prelude.{fold, ◌≡◌, ◌+◌, ◌-◌, ◌<◌, length};
ghost use Rattle.lattice.specs.Tally.{rank_of};
ghost use Rattle.extensions.specs.Racks.{Leave};
ghost use Rattle.fused.specs.Zeta.{clipped, ways_at};
ghost use Rattle.fused.specs.Spreads.{drawn_value, drawn_at, Taken, leave_added, spread_all, Taking};

use crate::racks::Racks;
use extensions::{Extended, extend_at, next_leave};
use search::size_start;
use sums::spread::spread;

/// What a rack counts for: its best for each of its ways.
fn rack_value(ways: f64, best: i32) -> f64
    ensures { result ≡ drawn_value ways best }
{
    if 0.0 < ways {
        ways * f64::from(best)
    } else {
        0.0
    }
}

/// The sum of numbers, one after another.
fn sum_of(numbers: &[f64]) -> f64
    ensures { result ≡ fold (add binary64) (of_bits binary64 0) numbers.now }
{
    numbers.iter().fold(0.0, |sum, &number| sum + number)
}

// num and den go side by side (C): they are lent slices, written through; so are values and counts.
impl<'a> Racks<'a> {
    /// What the racks from first on count for, and their ways, from the second place on.
    fn take_racks(&self, first: usize, values: &mut [f64], counts: &mut [f64])
        requires { Taking self.now.sizes.leaves first (length self.now.ways.now)
            (length self.now.best.now) (length values.old) (length counts.old) }
        ensures values { Taken (drawn_at self.now.sizes.leaves self.now.ways.now
            (clipped self.now.best.now)) first values.old values.new }
        ensures counts { Taken (ways_at self.now.sizes.leaves self.now.ways.now) first counts.old
            counts.new }
    {
        // Copies: what is behind a reference is read again after each write.
        let lo = self.sizes.leaves;
        let ways = self.ways;
        let best = self.best;
        // By index (N): two slices are written, from their second place on.
        for j in 0..values.len() - 1 {
            let w = ways[first + j - lo];
            let b = best[first + j];
            values[j + 1] = rack_value(w, b);
            counts[j + 1] = w;
        }
    }

    /// The racks that extend a leave are added to the leaves below them, if any of them has ways.
    fn spread_leave(
        &self,
        e: Extended,
        tally: &[u8],
        values: &mut [f64],
        counts: &mut [f64],
        num: &mut [f64],
        den: &mut [f64],
    )
        requires letters { length tally.now ≡ self.now.sizes.n }
        requires leave { Leave (length tally.now) self.now.sizes.r
            (rank_of (length tally.now) tally.now) tally.now e.stop e.first }
        requires values { length values.old ≡ length tally.now - e.stop + 2 }
        requires counts { length counts.old ≡ length tally.now - e.stop + 2 }
        ensures num { num.new
            ≡ leave_added (length tally.now) self.now.sizes.leaves self.now.ways.now
            (drawn_at self.now.sizes.leaves self.now.ways.now (clipped self.now.best.now))
            tally.now num.old }
        ensures den { den.new
            ≡ leave_added (length tally.now) self.now.sizes.leaves self.now.ways.now
            (ways_at self.now.sizes.leaves self.now.ways.now) tally.now den.old }
    {
        self.take_racks(e.first, values, counts);
        let value = sum_of(&values[1..]);
        let count = sum_of(&counts[1..]);
        if 0.0 < count {
            values[0] = value;
            counts[0] = count;
            spread(tally, e.stop, values, counts, num, den);
        }
    }

    /// The same over numbers that are lent: a slice of them for as many racks as extend the leave,
    /// and one more.
    // Apart from spread_leave (N): the slices are cut here, and all there is said of their lengths.
    #[tactic(auto, using(crate::specs::Spreads::leave_stop))]
    fn spread_at(
        &self,
        e: Extended,
        tally: &[u8],
        values: &mut [f64; 65],
        counts: &mut [f64; 65],
        num: &mut [f64],
        den: &mut [f64],
    )
        requires letters { length tally.now ≡ self.now.sizes.n }
        requires leave { Leave (length tally.now) self.now.sizes.r
            (rank_of (length tally.now) tally.now) tally.now e.stop e.first }
        ensures num { num.new
            ≡ leave_added (length tally.now) self.now.sizes.leaves self.now.ways.now
            (drawn_at self.now.sizes.leaves self.now.ways.now (clipped self.now.best.now))
            tally.now num.old }
        ensures den { den.new
            ≡ leave_added (length tally.now) self.now.sizes.leaves self.now.ways.now
            (ways_at self.now.sizes.leaves self.now.ways.now) tally.now den.old }
    {
        let k = e.racks(tally.len()) + 1;
        self.spread_leave(e, tally, &mut values[..k], &mut counts[..k], num, den);
    }

    /// Every leave of one tile less than a full rack, leave after leave, over a tally.
    pub fn spread_racks(&self, tally: &mut [u8], num: &mut [f64], den: &mut [f64])
        requires { length tally.old ≡ self.now.sizes.n }
        ensures num { num.new ≡ spread_all self.now.sizes.n self.now.sizes.r
            self.now.sizes.leaves self.now.ways.now
            (drawn_at self.now.sizes.leaves self.now.ways.now (clipped self.now.best.now)) num.old }
        ensures den { den.new ≡ spread_all self.now.sizes.n self.now.sizes.r
            self.now.sizes.leaves self.now.ways.now
            (ways_at self.now.sizes.leaves self.now.ways.now) den.old }
    {
        let sizes = self.sizes;
        let from = size_start(sizes.n, sizes.r - 1);
        // Memory of fixed size (C): the calls have no heap.
        let mut values = [0.0; 65];
        let mut counts = [0.0; 65];
        let mut e = extend_at(sizes.r, from, tally);
        // The walk over the leaves is written out, as in Drawable::best_racks (N): it is these
        // three calls, and a walk with its step as a closure would be handed as much.
        for _ in from..sizes.leaves {
            self.spread_at(e, tally, &mut values, &mut counts, num, den);
            e = next_leave(e, tally);
        }
    }
}
