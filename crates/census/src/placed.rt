ghost use Rattle.blanks.specs.Answer.{Outcome};

use blanks::record_blank_variants;
use lattice::Lattice;
use refusal::number;

#[unsafe(no_mangle)]
pub extern "C" fn census_record_blank_variants(
    n: usize,
    r: usize,
    sheet: &mut [i32],
    score: i32,
    letters: &mut [u8],
    drops: &mut [i32],
    unseen: &[u8],
    blanks: usize,
) -> u8
    ensures { Outcome n r sheet.old score letters.old drops.old unseen.now blanks result
        sheet.new letters.new drops.new }
{
    number(record_blank_variants(
        Lattice { n, r },
        sheet,
        score,
        letters,
        drops,
        unseen,
        blanks,
    ))
}
