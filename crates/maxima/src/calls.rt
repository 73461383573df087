//! The outward call: it answers for every input.
ghost use Rattle.refusal.specs.Refusal.{number_of};
ghost use Rattle.maxima.specs.Answers.{SubsetMaxed};

use crate::subset_max;
use lattice::Lattice;
use lattice::rank_tables::Ranks;
use refusal::Refusal;

/// Each entry of dst becomes the greatest of src over its sub-multisets. The ranks letter by letter
/// may be left out, as no entries; where they are given they must be right.
pub fn subset_max_transform(
    lat: Lattice,
    add: &[u32],
    by_letter: &[u32],
    src: &[i32],
    dst: &mut [i32],
) -> Result<(), Refusal>
    ensures { SubsetMaxed lat.n lat.r add.now by_letter.now src.now dst.old
        (number_of result) dst.new }
{
    let sizes = lat.sizes()?;
    if src.len() != sizes.len || dst.len() != sizes.len {
        return Err(Refusal::Length);
    }
    let ranks = Ranks::judge(sizes, add, by_letter)?;
    subset_max(sizes.n, sizes.r, sizes.leaves, ranks.add, src, dst);
    Ok(())
}
