//! What guards the sums: the number of hands as far as an f64 can hold it, the limit on it, and
//! tables that are clear on entry.
ghost use Rattle.std.specs.Prelude.{◌≡◌, ◌↔◌, ◌+◌, ◌*◌, ◌≤◌, ◌<◌, ◌^◌, max, nat_abs, length, IsTrue, SomeIff};
ghost use Rattle.lattice.specs.AddRows.{Decides};
ghost use Rattle.binomials.specs.Binomial.{binomial};
ghost use Rattle.lattice.specs.Tally.{total};
ghost use Rattle.sums.specs.Weight.{largest, Clear};

use whole::is_clear;

/// Up to here each whole number is an f64.
const LIMIT: u64 = 9_007_199_254_740_992;

/// A pool's count of a letter, as the sums and the draws read it (C): docs/DECISIONS.md, "Kept for
/// what comes".
pub fn held(count: u8) -> usize
    ensures same { result ≡ count }
    ensures byte { result ≤ 255 }
{
    usize::from(count)
}

/// How many tiles a pool has.
pub fn tiles_in(pool: &[u8]) -> usize
    requires { length pool.now ≤ 64 }
    ensures { result ≡ total pool.now }
{
    pool.iter().map(|&count| held(count)).sum()
}

/// C(tiles, k), where it is at most 2^53. Where it first is above, it stays so up to k: with k to
/// 15 and so many tiles the binomials ascend.
// Beside running_binomial (N): this one stays whole and tells where it is too large, that one is of
// numbers known to fit, and makes the f64 that its caller multiplies.
pub fn weight(tiles: usize, k: usize) -> Option<u64>
    requires { k ≤ 15 }
    ensures { SomeIff result (binomial tiles k ≤ 2 ^ 53) (binomial tiles k) }
{
    if tiles < k {
        return Some(0);
    }
    let mut hands: u64 = 1;
    // Not by try_fold (N): both tests leave early, and say of which turn they are.
    for j in 0..k {
        let left = (tiles - j) as u64;
        hands = hands.checked_mul(left)? / (j + 1) as u64;
        if LIMIT < hands {
            return None;
        }
    }
    Some(hands)
}

/// The larger of most and of the size of a number.
pub fn larger(most: u64, x: i32) -> u64
    ensures { result ≡ max most (nat_abs x) }
{
    most.max(u64::from(x.unsigned_abs()))
}

/// The largest size of an entry.
pub fn largest(entries: &[i32]) -> u64
    ensures { result ≡ largest entries.now }
{
    entries.iter().fold(0, |most, &x| larger(most, x))
}

/// Whether weight * most is at most 2^53.
pub fn within_limit(weight: u64, most: u64) -> bool
    requires { 0 < most }
    ensures { IsTrue result ↔ (weight * most ≤ 2 ^ 53) }
{
    weight <= LIMIT / most
}

/// Whether all hands, times the largest sheet plus the largest leave and at least 16, are at most
/// 2^53.
// Decides, not an equivalence (N): each direction has a name, by which the callers' proofs cite it.
pub fn within_weight(pool: &[u8], r: usize, sheet: u64, leave: u64) -> bool
    requires letters { length pool.now ≤ 64 }
    requires tiles { r ≤ 15 }
    requires sheet { sheet ≤ 536870911 }
    requires leave { leave ≤ 536870911 }
    ensures { Decides result (binomial (total pool.now) r * max 16 (sheet + leave) ≤ 2 ^ 53) }
{
    weight(tiles_in(pool), r).is_some_and(|hands| within_limit(hands, (sheet + leave).max(16)))
}

/// Whether every entry is +0.0.
pub fn all_clear(xs: &[f64]) -> bool
    ensures { IsTrue result ↔ Clear xs.now }
{
    xs.iter().all(|&x| is_clear(x))
}
