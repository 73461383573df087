//! The table sums: over a table of bests, each multiset's sum of the bests of the hands that hold
//! it, and the number of those hands.
#![tactic(auto)]

ghost use Rattle.std.specs.Prelude.{◌↔◌, IsTrue, length};
ghost use Rattle.refusal.specs.Refusal.{number_of};
ghost use Rattle.table_sums.specs.Table.{best_at, Sized, Filled, Apportioned};
ghost use Rattle.table_sums.specs.Calls.{HaveSize, Clearly, RacksDealt, Summing, Dealing, Dealt};

use fused::deal_racks;
use lattice::Lattice;
use lattice::sizes::Sizes;
use passes::fold_letters;
use racks::{clear_from, fill_values, most_of};
use refusal::Refusal;
use sums::weight::{all_clear, tiles_in, weight, within_limit};

pub mod passes;
pub mod racks;

/// Whether the slices have the lengths that a lattice of so many multisets and n letters asks.
fn lengths_fit(size: usize, n: usize, best: &[i32], unseen: &[u8], num: &[f64], den: &[f64]) -> bool
    ensures { IsTrue result ↔ HaveSize size n best.now unseen.now num.now den.now }
{
    best.len() == size && unseen.len() == n && num.len() == size && den.len() == size
}

/// The ways of the full racks are dealt into a clear table.
#[tactic(auto, using(crate::specs::Calls::lo_below, crate::specs::Calls::part_pool))]
fn deal_from(sizes: Sizes, unseen: &[u8], den: &mut [f64])
    requires { Clearly sizes unseen.now den.old }
    ensures { RacksDealt unseen.now sizes.r sizes.leaves den.old den.new }
{
    deal_racks(unseen, sizes.r, &mut den[sizes.leaves..]);
}

/// The sums, where den has the ways of the full racks.
// best, unseen, num and den go side by side (C): they are lent slices, and num and den written
// through, here and below.
#[tactic(auto, using(crate::specs::Calls::values_fit, crate::specs::Calls::fold_fits))]
fn sum_racks(sizes: Sizes, best: &[i32], unseen: &[u8], num: &mut [f64], den: &mut [f64])
    requires { Summing sizes best.now unseen.now num.old den.old }
    ensures { Filled (length unseen.now) sizes.r (best_at (length unseen.now) best.now) unseen.now
        num.new den.new }
{
    fill_values(sizes.leaves, best, den, num);
    fold_letters(sizes, unseen, num);
    fold_letters(sizes, unseen, den);
}

/// The ways of the full racks are dealt into den, which gives the largest best that counts. Beyond
/// the limit they are taken out again.
#[tactic(auto, using(crate::specs::Calls::clearly, crate::specs::Calls::most_fits, crate::specs::Calls::some_most, crate::specs::Calls::clear_fits))]
fn apportion_dealt(
    w: u64,
    sizes: Sizes,
    best: &[i32],
    unseen: &[u8],
    num: &mut [f64],
    den: &mut [f64],
) -> Result<(), Refusal>
    requires { Dealing w sizes best.now unseen.now num.old den.old }
    ensures { Dealt (length unseen.now) sizes.r best.now unseen.now num.old den.old
        (number_of result) num.new den.new }
{
    deal_from(sizes, unseen, den);
    let most = most_of(sizes.leaves, best, den);
    if !within_limit(w, most) {
        clear_from(den, sizes.leaves);
        return Err(Refusal::Weight);
    }
    sum_racks(sizes, best, unseen, num, den);
    Ok(())
}

/// The table sums over slices of the right lengths.
#[tactic(auto, using(lattice::specs::Served::facts))]
fn apportion_sized(
    sizes: Sizes,
    best: &[i32],
    unseen: &[u8],
    num: &mut [f64],
    den: &mut [f64],
) -> Result<(), Refusal>
    requires { Sized sizes.n sizes.r best.now unseen.now num.old den.old }
    ensures { Apportioned sizes.n sizes.r best.now unseen.now num.old den.old
        (number_of result) num.new den.new }
{
    if !all_clear(num) || !all_clear(den) {
        return Err(Refusal::NotClear);
    }
    let Some(hands) = weight(tiles_in(unseen), sizes.r) else {
        return Err(Refusal::Weight);
    };
    if !within_limit(hands, 16) {
        return Err(Refusal::Weight);
    }
    apportion_dealt(hands, sizes, best, unseen, num, den)
}

/// Fills num and den, which are +0.0 on entry: at each multiset, full racks included, the sum of
/// the bests of the hands that hold it, and the number of those hands. best, num and den have the
/// lattice's length, unseen has n counts.
#[tactic(auto, using(crate::specs::Calls::sized_of))]
pub fn apportion_table(
    lat: Lattice,
    best: &[i32],
    unseen: &[u8],
    num: &mut [f64],
    den: &mut [f64],
) -> Result<(), Refusal>
    ensures { Apportioned lat.n lat.r best.now unseen.now num.old den.old (number_of result)
        num.new den.new }
{
    let sizes = lat.sizes()?;
    if !lengths_fit(sizes.len, sizes.n, best, unseen, num, den) {
        return Err(Refusal::Length);
    }
    apportion_sized(sizes, best, unseen, num, den)
}
