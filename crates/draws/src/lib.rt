//! Draws: the mean best of the racks that a kept leave and tiles drawn from a pool make.
#![tactic(auto)]

ghost use Rattle.std.specs.Prelude.{◌↔◌, IsTrue, IfOk, OnOk, IfErr};
ghost use Rattle.refusal.specs.Refusal.{code_of};
ghost use Rattle.draws.specs.Draws.{Fills, DrawNumber, Valued};
ghost use Rattle.draws.specs.Given.{Given};

use lattice::add::add_is_right;
use lattice::sizes::Sizes;
use lattice::{Lattice, start_of};
use refusal::Refusal;
use sums::weight::{tiles_in, weight, within_limit};
use walk::{Drawn, Tables, Totals, Walk};
use whole::cut;

pub mod walk;

/// Whether the multiset at a rank makes a full rack with so many tiles more.
#[tactic(auto, using(lattice::specs::Served::facts))]
fn fills(sizes: Sizes, s_ridx: usize, draw: usize) -> bool
    ensures { IsTrue result ↔ Fills sizes.n sizes.r s_ridx draw }
{
    if sizes.r < draw {
        return false;
    }
    let s = sizes.r - draw;
    let at = s_ridx as u64;
    start_of(sizes.n, s) <= at && at < start_of(sizes.n, s + 1)
}

/// Judges all that is looked at before the walk over the draws: lengths, the leave, the table.
fn judge<'a>(
    lat: Lattice,
    add: &'a [u32],
    full_v: &'a [i32],
    pool: &'a [u8],
    s_ridx: usize,
    draw: usize,
) -> Result<Tables<'a>, Refusal>
    ensures given { IfOk result (Given lat.n lat.r add.now full_v.now pool.now) }
    ensures fills { OnOk result (Fills lat.n lat.r s_ridx draw) }
    ensures err { IfErr result (λ refusal.
        DrawNumber lat.n lat.r add.now full_v.now pool.now s_ridx draw (code_of refusal)) }
{
    let sizes = lat.sizes()?;
    if add.len() != sizes.entries() || full_v.len() != sizes.len || pool.len() != sizes.n {
        return Err(Refusal::Length);
    }
    if !fills(sizes, s_ridx, draw) {
        return Err(Refusal::Range);
    }
    if !add_is_right(sizes, add) {
        return Err(Refusal::Ranks);
    }
    Ok(Tables {
        sizes,
        add,
        full_v,
        pool,
    })
}

/// The mean over the draws, for input that is judged.
fn mean_of(tables: Tables, s_ridx: usize, draw: usize) -> Result<Option<i32>, Refusal>
    requires { Fills tables.sizes.n tables.sizes.r s_ridx draw }
    ensures { Valued tables.entry.sizes.n tables.entry.sizes.r tables.entry.add.now
        tables.entry.full_v.now tables.entry.pool.now s_ridx draw result }
{
    let tiles = tiles_in(tables.pool);
    let Some(hands) = weight(tiles, draw) else {
        return Err(Refusal::Weight);
    };
    let leave = Drawn {
        w: 1.0,
        ridx: s_ridx,
    };
    let none = Totals {
        num: 0.0,
        den: 0.0,
        most: 16,
    };
    let walk = Walk {
        add: tables.add,
        full_v: tables.full_v,
        pool: tables.pool,
    };
    let sums = walk.aggregate(0, draw, tiles, leave, none);
    if !within_limit(hands, sums.most) {
        return Err(Refusal::Weight);
    }
    if hands == 0 {
        return Ok(None);
    }
    Ok(Some(cut(sums.num, sums.den)))
}

/// The mean of the bests of the racks that the leave at a rank makes with `draw` tiles of the
/// pool, which excludes the leave, cut toward zero; none where so many tiles cannot be drawn. Bests
/// stand at the full racks' ranks in `full_v`.
pub fn dynamic_leave_value(
    lat: Lattice,
    add: &[u32],
    full_v: &[i32],
    pool: &[u8],
    s_ridx: usize,
    draw: usize,
) -> Result<Option<i32>, Refusal>
    ensures { Valued lat.n lat.r add.now full_v.now pool.now s_ridx draw result }
{
    let tables = judge(lat, add, full_v, pool, s_ridx, draw)?;
    mean_of(tables, s_ridx, draw)
}
