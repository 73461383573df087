//! The walk over the draws from a pool, one letter at a time.
ghost use Rattle.std.specs.Prelude.{◌≡◌, [], ◌∷◌, ℕ, ◌+◌, ◌-◌, ◌*◌, ◌≤◌, ◌<◌, pos};
ghost use Rattle.std.specs.Prelude.{length, get_or, drop};
ghost use Rattle.std.specs.Float.{binary64};
ghost use Rattle.std.specs.Float.Ieee.{mul, div};
ghost use Rattle.whole.specs.Whole.{whole};
ghost use Rattle.lattice.specs.Tables.{up};
ghost use Rattle.lattice.specs.Leaves.{AddTable};
ghost use Rattle.draws.specs.Draws.{Lengths};
ghost use Rattle.draws.specs.Walk.{factor, met, met_tile, Gathered};
ghost use Rattle.draws.specs.Walking.{Walking};

use lattice::sizes::Sizes;
use sums::weight::{held, larger};

/// Of the racks met so far: the sum of ways times bests, the sum of ways, and the largest size of
/// a best.
#[derive(Clone, Copy, Debug, PartialEq)]
pub struct Totals {
    pub num: f64,
    pub den: f64,
    pub most: u64,
}

/// A multiset on the way: the ways to draw the tiles so far, and the rank of the leave with them.
#[derive(Clone, Copy, Debug, PartialEq)]
pub struct Drawn {
    pub w: f64,
    pub ridx: usize,
}

/// What the walk reads: a lattice's table of ranks with one tile more, the bests at the full racks'
/// ranks, the pool.
#[derive(Clone, Copy, Debug)]
pub struct Walk<'a> {
    pub add: &'a [u32],
    pub full_v: &'a [i32],
    pub pool: &'a [u8],
}

/// The same with the lattice's sizes, judged.
#[derive(Clone, Copy, Debug)]
pub struct Tables<'a> {
    pub sizes: Sizes,
    pub add: &'a [u32],
    pub full_v: &'a [i32],
    pub pool: &'a [u8],
    pub ghost lengths: { Lengths sizes.n sizes.r add.now full_v.now pool.now },
    pub ghost right: { AddTable sizes.n sizes.r add.now },
}

/// C(u, j + 1), from C(u, j).
// A step alone (N): each one on the way is a draw's ways; sums::running_binomial gives the last.
#[inline]
fn next_binomial(binom: f64, u: usize, j: usize) -> f64
    requires some { j < u }
    requires byte { u ≤ 255 }
    ensures { result
        ≡ div binary64 (mul binary64 binom (whole (pos (u - j)))) (whole (pos (j + 1))) }
{
    binom * (u - j) as f64 / (j + 1) as f64
}

impl Walk<'_> {
    /// One rack more.
    #[inline]
    fn gain(&self, rack: Drawn, sums: Totals) -> Totals
        requires { rack.ridx < length self.now.full_v.now }
        ensures { Gathered self.now.full_v.now ((rack.w, rack.ridx) ∷ []) sums result }
    {
        let best = self.full_v[rack.ridx];
        Totals {
            num: sums.num + rack.w * f64::from(best),
            den: sums.den + rack.w,
            most: larger(sums.most, best),
        }
    }

    /// The rank with one tile more of letter t.
    #[inline]
    fn raised(&self, ridx: usize, t: usize) -> usize
        requires { ridx * length self.now.pool.now + t < length self.now.add.now }
        ensures { result ≡ up (length self.now.pool.now) self.now.add.now t ridx }
    {
        self.add[ridx * self.pool.len() + t] as usize
    }

    /// One rack more where the pool has letter u: the leave with one tile more, met in its ways
    /// for each of the letter's tiles.
    #[inline]
    #[tactic(auto, using(crate::specs::Walking::tile_place, crate::specs::Walking::tile_best))]
    fn gain_tile(&self, u: usize, leave: Drawn, sums: Totals) -> Totals
        requires walk { (r : ℕ) × (left : ℕ) × Walking r self.now.add.now self.now.full_v.now
            self.now.pool.now u 1 left leave.ridx }
        requires letter { u < length self.now.pool.now }
        ensures { Gathered self.now.full_v.now (met_tile (length self.now.pool.now)
            self.now.add.now u (get_or self.now.pool.now u 0) leave.w leave.ridx) sums result }
    {
        let count = held(self.pool[u]);
        if count == 0 {
            return sums;
        }
        let rack = Drawn {
            w: leave.w * next_binomial(1.0, count, 0),
            ridx: self.raised(leave.ridx, u),
        };
        self.gain(rack, sums)
    }

    /// As `aggregate` with one tile to come: a rack for each letter from t on that the pool has,
    /// from the last letter back.
    fn aggregate_last(&self, t: usize, leave: Drawn, sums: Totals) -> Totals
        requires { (r : ℕ) × (left : ℕ) × Walking r self.now.add.now self.now.full_v.now
            self.now.pool.now t 1 left leave.ridx }
        ensures { Gathered self.now.full_v.now (met factor (length self.now.pool.now)
            self.now.add.now t (drop t self.now.pool.now) 1 leave.w leave.ridx) sums result }
    {
        let mut sums = sums;
        for u in (t..self.pool.len()).rev() {
            sums = self.gain_tile(u, leave, sums);
        }
        sums
    }

    /// Adds up the racks with `remaining` tiles more of the letters from t on, of which the pool
    /// has `left`, than a leave that is on the way.
    pub fn aggregate(
        &self,
        t: usize,
        remaining: usize,
        left: usize,
        leave: Drawn,
        sums: Totals,
    ) -> Totals
        requires { (r : ℕ) × Walking r self.now.add.now self.now.full_v.now
            self.now.pool.now t remaining left leave.ridx }
        ensures { Gathered self.now.full_v.now (met factor (length self.now.pool.now)
            self.now.add.now t (drop t self.now.pool.now) remaining leave.w leave.ridx)
            sums result }
    {
        // (C): a walk that recurses, as docs/DECISIONS.md, "Forms", asks.
        if remaining == 0 {
            return self.gain(leave, sums);
        }
        if left < remaining {
            return sums;
        }
        if remaining == 1 {
            return self.aggregate_last(t, leave, sums);
        }
        let u = held(self.pool[t]);
        let rest = left - u;
        let mut sums = self.aggregate(t + 1, remaining, rest, leave, sums);
        // (N): each turn hands binom and ridx on to the next; a chain of iterators is no plainer.
        let mut binom = 1.0;
        let mut ridx = leave.ridx;
        for j in 0..u.min(remaining) {
            binom = next_binomial(binom, u, j);
            ridx = self.raised(ridx, t);
            let next = Drawn {
                w: leave.w * binom,
                ridx,
            };
            sums = self.aggregate(t + 1, remaining - j - 1, rest, next, sums);
        }
        sums
    }
}
