ghost use Rattle.maxima.specs.Answers.{SubsetMaxed};

use lattice::Lattice;
use maxima::calls::subset_max_transform;
use refusal::number;

#[unsafe(no_mangle)]
pub extern "C" fn census_subset_max_transform(
    n: usize,
    r: usize,
    add: &[u32],
    by_letter: &[u32],
    src: &[i32],
    dst: &mut [i32],
) -> u8
    ensures { SubsetMaxed n r add.now by_letter.now src.now dst.old result dst.new }
{
    number(subset_max_transform(Lattice { n, r }, add, by_letter, src, dst))
}
