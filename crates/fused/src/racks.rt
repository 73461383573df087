//! What the sums at the leaves are made from, leave by leave.
ghost use Rattle.std.specs.Prelude.{◌≡◌, ◌+◌, length};

use lattice::sizes::Sizes;

/// The sizes; the ways of each full rack, by its place among the full racks; and the best of each
/// multiset, by rank.
#[derive(Clone, Copy)]
pub struct Racks<'a> {
    pub sizes: Sizes,
    pub ways: &'a [f64],
    pub best: &'a [i32],
    pub ghost bests: { length best.now ≡ sizes.len },
    pub ghost full: { length best.now ≡ sizes.leaves + length ways.now },
}
