//! Ranks: calls 10 to 14.
use crate::answer;
use crate::case::Case;
use crate::lent::{MOST_TILES, Part, Short, filled};
use cases::{Fault, Fields};
use refusal::{Refusal, number};

/// Whether the numbers that are left are those of a rank: no, rank.
fn is_ranked(mut fields: Fields<'_>, ranked: Result<u32, Refusal>) -> bool {
    let (number, rank) = answer::rank(ranked);
    fields.is(number) && fields.is(rank) && fields.is_empty()
}

impl Case {
    // s; no, start.
    pub(crate) fn size_start(&self, mut fields: Fields<'_>) -> Result<bool, Fault> {
        let s = fields.read()?;
        Ok(is_ranked(fields, self.lattice.size_start(s)))
    }

    // Counted tally; no, rank.
    pub(crate) fn rank(&self, mut fields: Fields<'_>) -> Result<bool, Fault> {
        let tally = fields.list(self.alloc, MOST_TILES)?;
        Ok(is_ranked(fields, self.lattice.rank(&tally)))
    }

    // s, counted letters, counted counts; no, rank.
    pub(crate) fn rank_sparse(&self, mut fields: Fields<'_>) -> Result<bool, Fault> {
        let s = fields.read()?;
        let letters = fields.list(self.alloc, MOST_TILES)?;
        let counts = fields.list(self.alloc, MOST_TILES)?;
        Ok(is_ranked(fields, self.lattice.rank_sparse(s, &letters, &counts)))
    }

    // Counted bytes; no, rank.
    pub(crate) fn rank_bytes(&self, mut fields: Fields<'_>) -> Result<bool, Fault> {
        let tiles = fields.list(self.alloc, MOST_TILES)?;
        Ok(is_ranked(fields, self.lattice.rank_bytes(&tiles)))
    }

    // idx, short (1 the slice), fill; no, the slice after.
    pub(crate) fn unrank_into(&self, mut fields: Fields<'_>) -> Result<bool, Fault> {
        let idx = fields.read()?;
        let short = Short::read(&mut fields, &[Part::Out])?;
        let fill = fields.read()?;
        let len = short.len_of(Part::Out, self.lattice.n);
        let mut out = filled::<u8>(self.alloc, fill, len, MOST_TILES)?;
        let number = number(self.lattice.unrank_into(idx, &mut out));
        Ok(fields.is(number) && fields.are(&out) && fields.is_empty())
    }
}
