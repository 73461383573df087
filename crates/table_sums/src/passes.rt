//! The sums over supersets, a letter at a time and in place: each entry gains the entry of the
//! multiset with one tile more of the letter. No table of ranks is read: with the letters before
//! it chosen, a letter's multisets of one size stand in one run of ranks, and so do those with one
//! tile more.
ghost use Rattle.std.specs.Prelude.{◌≡◌, ◌+◌, ◌-◌, ◌≤◌, ◌<◌, suc, ℤ, List, ℕ, length};
ghost use Rattle.lattice.specs.Tally.{start};
ghost use Rattle.table_sums.specs.Gain.{Lifted, Gained, Gaining};
ghost use Rattle.table_sums.specs.Passes.{Passed, Folding, Summed};

use binomials::choose;
use lattice::sizes::Sizes;
use search::{rank_step, size_start};

/// Each of `size` entries from w on gains the entry as far from v on.
fn gain_run(xs: &mut [f64], w: usize, v: usize, size: usize)
    requires apart { w + size ≤ v }
    requires room { v + size ≤ length xs.old }
    ensures { Lifted w v size xs.old xs.new }
{
    // (N): both runs stand in one slice, and to split it for a zip is no plainer.
    for j in 0..size {
        xs[w + j] += xs[v + j];
    }
}

/// Each multiset of rem tiles of the letters from k on gains the entry of that with one tile more
/// of letter t: the first stand from w on, and those with one tile more from v on.
// (C): a walk that recurses, as docs/DECISIONS.md, "Forms", asks.
fn gain_from(n: usize, t: usize, k: usize, rem: usize, w: usize, v: usize, xs: &mut [f64])
    requires { Gaining n t k rem w v (length xs.old) }
    ensures { Gained (n - k) (t - k) rem w v xs.old xs.new }
{
    let m = n - k - 1;
    if k == t {
        let size = choose(m, rem) as usize;
        let to = v + rank_step(m, rem + 1, 1);
        gain_run(xs, w, to, size);
    } else {
        for c in 0..=rem {
            let a = w + rank_step(m, rem, c);
            let b = v + rank_step(m, rem + 1, c);
            gain_from(n, t, k + 1, rem - c, a, b, xs);
        }
    }
}

/// One letter's pass: larger multisets first.
#[tactic(auto, using(lattice::specs::Served::facts))]
fn gain_letter(sizes: Sizes, t: usize, xs: &mut [f64])
    requires letter { t < sizes.n }
    requires size { length xs.old ≡ start sizes.n (suc sizes.r) }
    ensures { Passed sizes.n sizes.r t xs.old xs.new }
{
    for s in (0..sizes.r).rev() {
        let w = size_start(sizes.n, s);
        let v = size_start(sizes.n, s + 1);
        gain_from(sizes.n, t, 0, s, w, v, xs);
    }
}

/// Every letter's pass. A letter that the pool lacks is in no rack drawn from it, and is skipped.
pub fn fold_letters(sizes: Sizes, unseen: &[u8], xs: &mut [f64])
    requires letters { length unseen.now ≡ sizes.n }
    requires size { length xs.old ≡ start sizes.n (suc sizes.r) }
    ensures size { length xs.new ≡ length xs.old }
    ensures sums { (g : List ℕ → ℤ) → Folding unseen.now sizes.r g xs.old
        → Summed (length unseen.now) sizes.r g xs.new }
{
    for (t, &count) in unseen.iter().enumerate() {
        if count != 0 {
            gain_letter(sizes, t, xs);
        }
    }
}
