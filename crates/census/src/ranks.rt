ghost use Rattle.std.specs.Prelude.{◌≡◌, length};
ghost use Rattle.refusal.specs.Refusal.{number_of};
ghost use Rattle.lattice.specs.Tally.{lattice, start};
ghost use Rattle.lattice.specs.Tiles.{tally_of, sparse};
ghost use Rattle.lattice.specs.Answers.{Unranked};
ghost use Rattle.lattice.specs.Numbers.{value, len_number, size_start_number, rank_number};
ghost use Rattle.lattice.specs.Numbers.{rank_bytes_number, rank_sparse_number};
ghost use Rattle.lattice.specs.Triangle.{PascalRows};
ghost use Rattle.census.specs.Plain.{PlainSize, PlainRank};

use lattice::Lattice;
use lattice::triangle::pascal_rows;
use refusal::{Refusal, number};

/// Stands for a rank where there is none.
pub const NONE: u32 = 4_294_967_295;

/// A rank, a size or a start with the number of its refusal: `NONE` where refused.
#[repr(C)]
#[derive(Clone, Copy, Debug, PartialEq, Eq, Hash)]
pub struct Rank {
    pub number: u8,
    pub value: u32,
}

impl From<Result<u32, Refusal>> for Rank {
    ghost from_gives = { λ answer rank. (rank.number ≡ number_of answer)
        × (rank.value ≡ value answer) };

    fn from(answer: Result<u32, Refusal>) -> Rank {
        Rank {
            number: number(answer),
            value: answer.unwrap_or(NONE),
        }
    }
}

#[unsafe(no_mangle)]
pub extern "C" fn census_len(n: usize, r: usize) -> Rank
    ensures { PlainSize (len_number n r) (length (lattice n r)) result.number result.value }
{
    Rank::from(Lattice { n, r }.len())
}

#[unsafe(no_mangle)]
pub extern "C" fn census_full_rack_start(n: usize, r: usize) -> Rank
    ensures { PlainSize (len_number n r) (start n r) result.number result.value }
{
    Rank::from(Lattice { n, r }.full_rack_start())
}

#[unsafe(no_mangle)]
pub extern "C" fn census_size_start(n: usize, r: usize, s: usize) -> Rank
    ensures { PlainSize (size_start_number n r s) (start n s) result.number result.value }
{
    Rank::from(Lattice { n, r }.size_start(s))
}

#[unsafe(no_mangle)]
pub extern "C" fn census_rank(n: usize, r: usize, tally: &[u8]) -> Rank
    ensures { PlainRank n r tally.now (rank_number n r tally.now) result.number result.value }
{
    Rank::from(Lattice { n, r }.rank(tally))
}

#[unsafe(no_mangle)]
pub extern "C" fn census_rank_bytes(n: usize, r: usize, tiles: &[u8]) -> Rank
    ensures { PlainRank n r (tally_of n tiles.now) (rank_bytes_number n r tiles.now)
        result.number result.value }
{
    Rank::from(Lattice { n, r }.rank_bytes(tiles))
}

#[unsafe(no_mangle)]
pub extern "C" fn census_rank_sparse(
    n: usize,
    r: usize,
    s: usize,
    letters: &[u8],
    counts: &[u8],
) -> Rank
    ensures { PlainRank n r (sparse n letters.now counts.now)
        (rank_sparse_number n r s letters.now counts.now) result.number result.value }
{
    Rank::from(Lattice { n, r }.rank_sparse(s, letters, counts))
}

#[unsafe(no_mangle)]
pub extern "C" fn census_unrank_into(n: usize, r: usize, idx: usize, out: &mut [u8]) -> u8
    ensures { Unranked n r idx out.old result out.new }
{
    number(Lattice { n, r }.unrank_into(idx, out))
}

#[unsafe(no_mangle)]
pub extern "C" fn census_pascal_rows(rows: usize, out: &mut [u64]) -> u8
    ensures { PascalRows rows out.old result out.new }
{
    number(pascal_rows(rows, out))
}
