//! The sizes of a lattice that is served.
ghost use Rattle.std.specs.Prelude.{◌≡◌, ◌+◌, ◌*◌, true};
ghost use Rattle.binomials.specs.Binomial.{binomial};
ghost use Rattle.lattice.specs.Answers.{served};
ghost use Rattle.lattice.specs.Tally.{start};

/// The sizes of a lattice that is served: n letters, racks of r tiles, how many multisets are
/// leaves, of fewer than r tiles, and how many there are at all. Full racks start at `leaves`.
#[derive(Clone, Copy, Debug, PartialEq, Eq, Hash)]
pub struct Sizes {
    pub n: usize,
    pub r: usize,
    pub leaves: usize,
    pub len: usize,
    pub ghost is_served: { served n r ≡ true },
    pub ghost starts: { leaves ≡ start n r },
    pub ghost counts: { len ≡ binomial (n + r) n },
}

impl Sizes {
    /// How many entries a table of ranks has: one for each leave and letter.
    #[inline]
    pub fn entries(self) -> usize
        ensures { result ≡ start self.n self.r * self.n }
    {
        self.leaves * self.n
    }
}
