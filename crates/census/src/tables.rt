ghost use Rattle.std.specs.Prelude.{◌+◌, ◌≤◌, length, take, drop};
ghost use Rattle.lattice.specs.TableCalls.{AddFilled, ByLetterFilled, LetterPart};

use lattice::Lattice;
use refusal::number;

/// A part of a lent slice: where it starts, and how many entries it has.
#[repr(C)]
#[derive(Clone, Copy, Debug, PartialEq, Eq, Hash)]
pub struct Part {
    pub start: usize,
    pub len: usize,
}

#[unsafe(no_mangle)]
pub extern "C" fn census_fill_add(n: usize, r: usize, add: &mut [u32]) -> u8
    ensures { AddFilled n r add.old result add.new }
{
    number(Lattice { n, r }.fill_add(add))
}

#[unsafe(no_mangle)]
pub extern "C" fn census_fill_by_letter(
    n: usize,
    r: usize,
    add: &[u32],
    by_letter: &mut [u32],
) -> u8
    ensures { ByLetterFilled n r add.now by_letter.old result by_letter.new }
{
    number(Lattice { n, r }.fill_by_letter(add, by_letter))
}

/// The ranks of one letter as a part of the table: no entries where refused, or where the table is
/// empty.
#[unsafe(no_mangle)]
pub extern "C" fn census_letter(n: usize, r: usize, by_letter: &[u32], t: usize) -> Part
    ensures { (result.start + result.len ≤ length by_letter.now)
        × LetterPart n r by_letter.now t (take result.len (drop result.start by_letter.now)) }
{
    let part = Lattice { n, r }.letter(by_letter, t);
    let len = part.len();
    if len == 0 {
        return Part { start: 0, len: 0 };
    }
    Part {
        start: t * len,
        len,
    }
}
