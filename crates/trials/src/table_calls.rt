//! Tables of binomials and of ranks: calls 15 to 18.
use crate::case::Case;
use crate::lent::{MOST_RANKS, MOST_VALUES, Part, Short, filled, spoil};
use cases::{Fault, Fields};
use lattice::triangle;
use refusal::number;

/// What every entry of a table holds before it is written.
const UNWRITTEN: u8 = 7;

impl Case {
    /// The tables of ranks with a damage: up to the length of the first, the entry of the first
    /// that is spoilt, and beyond it the entry of the second.
    pub(crate) fn damaged(&self, damage: u64) -> Result<(Vec<u32>, Vec<u32>), Fault> {
        let mut add = self.add.clone()?;
        let mut by_letter = self.by_letter.clone()?;
        spoil(&mut by_letter, damage.saturating_sub(add.len() as u64));
        spoil(&mut add, damage);
        Ok((add, by_letter))
    }

    // Rows, length of the slice; no, the slice after.
    pub(crate) fn pascal_rows(&self, mut fields: Fields<'_>) -> Result<bool, Fault> {
        let rows = fields.read()?;
        let len = fields.read()?;
        let mut out = filled(self.alloc, u64::from(UNWRITTEN), len, MOST_VALUES)?;
        let number = number(triangle::pascal_rows(rows, &mut out));
        Ok(fields.is(number) && fields.are(&out) && fields.is_empty())
    }

    // Short (1 the slice); no, the slice after.
    pub(crate) fn fill_add(&self, mut fields: Fields<'_>) -> Result<bool, Fault> {
        let short = Short::read(&mut fields, &[Part::Out])?;
        let len = short.len_of(Part::Out, self.add.len());
        let mut out = filled(self.alloc, u32::from(UNWRITTEN), len, MOST_RANKS)?;
        let number = number(self.lattice.fill_add(&mut out));
        Ok(fields.is(number) && fields.are(&out) && fields.is_empty())
    }

    // Short (1 add table, 2 the slice), damage; no, the slice after.
    pub(crate) fn fill_by_letter(&self, mut fields: Fields<'_>) -> Result<bool, Fault> {
        let short = Short::read(&mut fields, &[Part::Add, Part::Out])?;
        let (add, _) = self.damaged(fields.number()?)?;
        let len = short.len_of(Part::Out, add.len());
        let mut out = filled(self.alloc, u32::from(UNWRITTEN), len, MOST_RANKS)?;
        let add = short.cut(Part::Add, &add);
        let number = number(self.lattice.fill_by_letter(add, &mut out));
        Ok(fields.is(number) && fields.are(&out) && fields.is_empty())
    }

    // 0 (empty table) or 1 (whole), letter; counted ranks.
    pub(crate) fn letter(&self, mut fields: Fields<'_>) -> Result<bool, Fault> {
        let by_letter = match fields.number()? {
            0 => &[],
            _ => &self.by_letter[..],
        };
        let part = self.lattice.letter(by_letter, fields.read()?);
        Ok(fields.is(part.len()) && fields.are(part) && fields.is_empty())
    }
}
