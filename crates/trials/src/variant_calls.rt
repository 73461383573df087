//! Blank variants: call 40.
use crate::case::Case;
use crate::lent::{MOST_TILES, Part, Short};
use blanks::record_blank_variants;
use cases::{Fault, Fields};
use refusal::number;

impl Case {
    // Score, blanks, short (1 sheet, 2 pool), counted letters, counted drops; no, letters after,
    // drops after, sheet after. The call writes to a copy of the sheet.
    pub(crate) fn record_blank_variants(&self, mut fields: Fields<'_>) -> Result<bool, Fault> {
        let score = fields.read()?;
        let blanks = fields.read()?;
        let short = Short::read(&mut fields, &[Part::Sheet, Part::Pool])?;
        let mut letters = fields.list(self.alloc, MOST_TILES)?;
        let mut drops = fields.list(self.alloc, MOST_TILES)?;
        let mut sheet = short.cut(Part::Sheet, &self.sheet).to_vec(self.alloc)?;
        let pool = short.cut(Part::Pool, &self.pool);
        let number = number(record_blank_variants(
            self.lattice,
            &mut sheet,
            score,
            &mut letters,
            &mut drops,
            pool,
            blanks,
        ));
        Ok(
            fields.is(number)
                && fields.are(&letters)
                && fields.are(&drops)
                && fields.are(&sheet)
                && fields.is_empty(),
        )
    }
}
