//! The outward call: it answers for every input.
ghost use Rattle.refusal.specs.Refusal.{number_of};
ghost use Rattle.fused.specs.Answer.{input, lent, Fused};

use crate::board::Board;
use crate::fuse::fuse;
use crate::judge::{Written, judge};
use crate::mode::Mode;
use lattice::Lattice;
use refusal::Refusal;

/// Each leave's sum of bests and count over the hands that hold it, in num and den; each full
/// rack's ways; and the bests, in maxsheet. num, den and ways are +0.0 on entry. The ranks letter
/// by letter may be left out, as no entries; leave_max is read where scatter is in force.
// (C): its parameters are those of docs/SCOPE.md's call; no letter table is an empty slice there.
pub fn apportion_fused(
    lat: Lattice,
    add: &[u32],
    by_letter: &[u32],
    sheet: &[i32],
    leave: &[i32],
    leave_max: &[i32],
    unseen: &[u8],
    num: &mut [f64],
    den: &mut [f64],
    ways: &mut [f64],
    maxsheet: &mut [i32],
    mode: Mode,
) -> Result<(), Refusal>
    ensures { Fused (input lat.n lat.r add.now by_letter.now
        sheet.now leave.now leave_max.now unseen.now mode)
        (lent num.old den.old ways.old maxsheet.old) (number_of result)
        (lent num.new den.new ways.new maxsheet.new) }
{
    let sizes = lat.sizes()?;
    let board = Board {
        sheet,
        leave,
        leave_max,
        unseen,
        mode,
    };
    let written = Written {
        num,
        den,
        ways,
        maxsheet,
    };
    let ranks = judge(sizes, add, by_letter, &board, &written)?;
    fuse(&ranks, &board, num, den, ways, maxsheet);
    Ok(())
}
