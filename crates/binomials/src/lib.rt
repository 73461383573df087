//! Binomials C(p + k, k), for p from 0 to 64 and k from 0 to 16, read from a table of constants, and
//! the multisets of fewer tiles, from another.
#![tactic(auto)]

ghost use Rattle.std.specs.Prelude.{◌≡◌, ◌+◌, ◌-◌, ◌^◌, ◌<◌, ◌≤◌};
ghost use Rattle.binomials.specs.Binomial.{binomial};

mod table;

/// C(p + k, p): how many multisets of k tiles there are over p + 1 letters, or of at most k tiles
/// over p letters.
#[inline(always)]
pub fn choose(p: usize, k: usize) -> u64
    requires letters { p ≤ 64 }
    requires tiles { k ≤ 16 }
    ensures { result ≡ binomial (k + p) p }
{
    table::BINOMIALS[p * 17 + k]
}

/// How many multisets of fewer than s tiles there are over p letters: C(p + s - 1, p), or none.
#[inline(always)]
pub fn fewer(p: usize, s: usize) -> u64
    requires letters { p < 64 }
    requires tiles { s < 16 }
    ensures none { s ≡ 0 → result ≡ 0 }
    ensures some { 1 ≤ s → result ≡ binomial (s - 1 + p) p }
    ensures small { result < 2 ^ 50 }
{
    table::FEWER[p * 16 + s]
}
