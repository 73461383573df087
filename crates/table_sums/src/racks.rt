//! The full racks' own entries: the largest best of those that can be drawn, and their ways times
//! their bests.
ghost use Rattle.std.specs.Prelude.{◌≡◌, cond, ◌-◌, ◌≤◌, max, nat_abs, length};
ghost use Rattle.std.specs.Float.Ieee.{lt, of_bits};
ghost use Rattle.std.specs.Float.{binary64};
ghost use Rattle.table_sums.specs.Racks.{most_from, Valued, Cleared};

use sums::weight::larger;

/// The larger of most and of the size of a rack's best, where it has a way.
fn larger_drawn(most: u64, ways: f64, best: i32) -> u64
    ensures { result ≡ cond (lt (of_bits binary64 0) ways) (max most (nat_abs best)) most }
{
    if 0.0 < ways { larger(most, best) } else { most }
}

/// The largest size of the bests of the racks from lo on that have a way, and at least 16.
pub fn most_of(lo: usize, best: &[i32], ways: &[f64]) -> u64
    requires racks { lo ≤ length best.now }
    requires ways { length best.now ≡ length ways.now }
    ensures { result ≡ most_from lo best.now ways.now (length best.now - lo) }
{
    let mut most = 16;
    // By place (N): what is found is said of places, and a zip would have to carry them beside.
    for (j, &best) in best[lo..].iter().enumerate() {
        most = larger_drawn(most, ways[lo + j], best);
    }
    most
}

/// For each rack from lo on that has a way, its ways times its best.
pub fn fill_values(lo: usize, best: &[i32], ways: &[f64], num: &mut [f64])
    requires racks { lo ≤ length best.now }
    requires ways { length best.now ≡ length ways.now }
    requires nums { length best.now ≡ length num.old }
    ensures { Valued lo best.now ways.now (length best.now) num.old num.new }
{
    let (best, ways) = (&best[lo..], &ways[lo..]);
    // An entry with no way stays (N): fused's value of a rack, 0 there, would be one write more.
    for (j, sum) in num[lo..].iter_mut().enumerate() {
        if 0.0 < ways[j] {
            *sum = ways[j] * f64::from(best[j]);
        }
    }
}

/// Every entry from lo on becomes +0.0.
pub fn clear_from(xs: &mut [f64], lo: usize)
    requires { lo ≤ length xs.old }
    ensures { Cleared lo (length xs.old) xs.old xs.new }
{
    xs[lo..].fill(0.0);
}
