//! A play beside every tally that may be kept: a walk over the letters, with the ranks carried.
ghost use Rattle.std.specs.Prelude.{◌≡◌, ◌+◌, ◌≤◌, ◌<◌, suc, length, pos, ◌+ℤ◌, slice_index_or};
ghost use Rattle.lattice.specs.Tally.{total, start};
ghost use Rattle.maxima.specs.Maxima.{raise};
ghost use Rattle.scatter.specs.Raise.{raise_all};
ghost use Rattle.scatter.specs.Ready.{Small, Planned, is_prop-Small};

use crate::plan::Plan;
use maxima::raise;
use search::{rank_step, size_start};

/// A play: its worth and its tally, the values of the leaves by rank, of each letter how many may
/// be kept beside it, how many tiles are kept, and its plan.
#[derive(Clone, Copy)]
pub struct Play<'a> {
    pub worth: i32,
    pub tally: &'a [u8],
    pub leave: &'a [i32],
    pub caps: &'a [u8],
    pub keep: usize,
    pub plan: &'a Plan,
    pub ghost small: { Small worth leave.now } by { is_prop-Small _ _ },
    pub ghost letters: { length tally.now ≤ 64 },
    pub ghost same: { length tally.now ≡ length caps.now },
    pub ghost tiles: { total tally.now + keep ≤ 15 },
    pub ghost planned: { Planned tally.now caps.now keep plan.now },
}

impl<'a> Play<'a> {
    ghost use Rattle.scatter.specs.Standing.{Stands, offers};

    /// The rack at rank r is worth at least the play with the leave at rank k.
    #[inline]
    fn offer(&self, k: usize, r: usize, best: &mut [i32])
        requires in_leave { k < length self.now.leave.now }
        requires in_best { r < length best.old }
        ensures { best.new
            ≡ raise best.old r (self.now.worth +ℤ slice_index_or self.now.leave.now k (pos 0)) }
    {
        let worth = self.worth + self.leave[k];
        raise(best, r, worth);
    }

    // A walk that recurses, and steps that wrap at the last one and two tiles (C):
    // docs/DECISIONS.md, "Forms".

    /// As walk, where one tile is still to be kept: each letter u that may be kept completes what
    /// is kept. The rack's rank gains what the letters from t to u add, of which none is kept, and
    /// what u and those after it add; it wraps on the way.
    fn last_one(&self, t: usize, k: usize, r: usize, best: &mut [i32])
        requires { Stands (length best.old) self.now t 1 k r }
        ensures { best.new ≡ raise_all best.old (offers self.now k r t 1) }
    {
        let n = self.tally.len();
        let base = r.wrapping_sub(self.plan.one.none[t]);
        // By number (N): it gives the letter's step and its row.
        for u in t..n {
            if 0 < self.caps[u] {
                let kept = k + rank_step(n - 1 - u, 1, 1);
                let rack = base.wrapping_add(self.plan.one.whole[u]);
                self.offer(kept, rack, best);
            }
        }
    }

    /// As walk, where two tiles are still to be kept: each letter u that may be kept takes one of
    /// them, and one is still to be kept from the next on; or both, where two of it may be.
    fn last_two(&self, t: usize, k: usize, r: usize, best: &mut [i32])
        requires { Stands (length best.old) self.now t 2 k r }
        ensures { best.new ≡ raise_all best.old (offers self.now k r t 2) }
    {
        let n = self.tally.len();
        let base = r.wrapping_sub(self.plan.two.none[t]);
        // By number (N): it gives the letter's step, its row and the next letter.
        for u in t..n {
            if 0 < self.caps[u] {
                let after = n - 1 - u;
                let once = k + rank_step(after, 2, 1);
                let rest = base.wrapping_add(self.plan.two.once[u]);
                self.last_one(u + 1, once, rest, best);
                if 1 < self.caps[u] {
                    let twice = k + rank_step(after, 2, 2);
                    let rack = base.wrapping_add(self.plan.two.whole[u]);
                    self.offer(twice, rack, best);
                }
            }
        }
    }

    /// Each tally of s tiles that may be kept from letter t on is kept in turn, a letter at a time,
    /// with the ranks carried: k of what is kept so far, and r of the rack so far.
    fn walk(&self, t: usize, s: usize, k: usize, r: usize, best: &mut [i32])
        requires { Stands (length best.old) self.now t s k r }
        ensures { best.new ≡ raise_all best.old (offers self.now k r t s) }
    {
        if s == 0 {
            self.offer(k, r + self.plan.tail[t], best);
        } else if s == 1 {
            self.last_one(t, k, r, best);
        } else if s == 2 {
            self.last_two(t, k, r, best);
        } else if s <= self.plan.room[t] {
            let after = self.tally.len() - 1 - t;
            let own = usize::from(self.tally[t]);
            let left = self.plan.rest[t] + s;
            let most = usize::from(self.caps[t]).min(s);
            for c in 1..=most {
                let kept = k + rank_step(after, s, c);
                let rack = r + rank_step(after, left, own + c);
                self.walk(t + 1, s - c, kept, rack, best);
            }
            let next = r + rank_step(after, left, own);
            self.walk(t + 1, s, k, next, best);
        }
    }

    /// Offers the play, with every tally that may be kept beside it, to the rack of the two.
    pub fn offer_all(&self, best: &mut [i32])
        requires in_leave { length self.now.leave.now
            ≡ start (length self.now.tally.now) (suc (total self.now.tally.now + self.now.keep)) }
        requires in_best { length best.old ≡ length self.now.leave.now }
        ensures { best.new ≡ raise_all best.old (offers self.now
            (start (length self.now.tally.now) self.now.keep)
            (start (length self.now.tally.now) (total self.now.tally.now + self.now.keep))
            0 self.now.keep) }
    {
        let n = self.tally.len();
        let r = self.plan.rest[0] + self.keep;
        self.walk(
            0,
            self.keep,
            size_start(n, self.keep),
            size_start(n, r),
            best,
        );
    }
}
