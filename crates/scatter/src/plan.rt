//! The plan of a play: what its letters add to the ranks of the racks that it makes with what is
//! kept beside it.
ghost use Rattle.std.specs.Prelude.{◌≡◌, ◌+◌, ◌-◌, ◌≤◌, length};
ghost use Rattle.lattice.specs.Tally.{total};

use search::rank_step;

/// A number for each letter, and one past the last. Of fixed size (C): the calls have no heap.
pub type Row = [usize; 65];

/// What is read where the last one or two tiles to be kept are all of one letter, or one of them
/// is: what the letters before it add to the rack's rank, of which none is kept; the same with one
/// of the letter kept; and what the whole rack gains with all of them of the letter.
#[derive(Clone, Copy, Debug, PartialEq, Eq, Default)]
pub struct Last {
    pub none: Row,
    pub once: Row,
    pub whole: Row,
}

/// From each letter on: the play's tiles, what they add to a rank, and how many tiles may be kept.
/// And the same for the last tile to be kept, and for the last two.
#[derive(Clone, Copy, Debug, PartialEq, Eq, Default)]
pub struct Plan {
    pub rest: Row,
    pub tail: Row,
    pub room: Row,
    pub one: Last,
    pub two: Last,
}

impl Last {
    ghost use Rattle.scatter.specs.Ready.{Tails, Lasts};

    /// For the last s tiles of a play's racks, where `rest` and `tail` are those of its plan.
    pub fn fill(&mut self, tally: &[u8], rest: &Row, tail: &Row, s: usize)
        requires letters { length tally.now ≤ 64 }
        requires tiles { total tally.now + s ≤ 16 }
        requires tails { Tails tally.now rest.now tail.now }
        requires some { 1 ≤ s }
        ensures { Lasts s tally.now self.new }
    {
        let n = tally.len();
        let mut none = 0;
        // By index (N): three rows are written at once, and two more read.
        for t in 0..n {
            let after = n - 1 - t;
            let own = usize::from(tally[t]);
            let left = rest[t] + s;
            let once = none + rank_step(after, left, own + 1);
            let whole = none + rank_step(after, left, own + s) + tail[t + 1];
            self.none[t] = none;
            self.once[t] = once;
            self.whole[t] = whole;
            none += rank_step(after, left, own);
        }
        self.none[n] = none;
    }
}

impl Plan {
    ghost use Rattle.scatter.specs.Ready.{Sums, Planned};

    /// The sums from each letter on, from the last letter back.
    fn sum(&mut self, tally: &[u8], caps: &[u8])
        requires same { length tally.now ≡ length caps.now }
        requires letters { length tally.now ≤ 64 }
        requires tiles { total tally.now ≤ 15 }
        ensures { Sums tally.now caps.now self.new }
    {
        let n = tally.len();
        let mut rest = 0;
        let mut tail = 0;
        let mut room = 0;
        self.rest[n] = rest;
        self.tail[n] = tail;
        self.room[n] = room;
        // By index (N): three rows are written at once.
        for i in 0..n {
            let t = n - 1 - i;
            let own = usize::from(tally[t]);
            rest += own;
            tail += rank_step(i, rest, own);
            room += usize::from(caps[t]);
            self.rest[t] = rest;
            self.tail[t] = tail;
            self.room[t] = room;
        }
    }

    /// The plan of a play that makes racks of r tiles, with at most so many of each letter kept:
    /// how many tiles are kept. What is read for the last tiles is left out where none are.
    pub fn fill(&mut self, tally: &[u8], caps: &[u8], r: usize) -> usize
        requires same { length tally.now ≡ length caps.now }
        requires letters { length tally.now ≤ 64 }
        requires tiles { total tally.now ≤ r }
        requires size { r ≤ 15 }
        ensures kept { result ≡ r - total tally.now }
        ensures planned { Planned tally.now caps.now result self.new }
    {
        self.sum(tally, caps);
        let keep = r - self.rest[0];
        if 1 <= keep {
            self.one.fill(tally, &self.rest, &self.tail, 1);
        }
        if 2 <= keep {
            self.two.fill(tally, &self.rest, &self.tail, 2);
        }
        keep
    }
}
