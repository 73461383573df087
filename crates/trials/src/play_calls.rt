//! Best plays: calls 20 to 23.
use crate::answer;
use crate::case::Case;
use crate::lent::{MOST_TILES, MOST_VALUES, Part, Short, filled};
use cases::{Fault, Fields};
use refusal::number;
use search::calls;

/// The most letters of a lattice.
// (N): listing, which has the same for its fixed memory, is not used here.
const MOST_LETTERS: usize = 64;

impl Case {
    // Short (1 sheet, 2 leave), counted tally; no, best, counted kept tally, kind.
    pub(crate) fn naive_best_equity(&self, mut fields: Fields<'_>) -> Result<bool, Fault> {
        let short = Short::read(&mut fields, &[Part::Sheet, Part::Leave])?;
        let tally = fields.list(self.alloc, MOST_TILES)?;
        let letters = self.lattice.n.min(MOST_LETTERS);
        let mut kept = filled(self.alloc, 0, letters, MOST_LETTERS)?;
        let answer = calls::naive_best_equity(
            self.lattice,
            short.cut(Part::Sheet, &self.sheet),
            short.cut(Part::Leave, &self.leave),
            &tally,
            &mut kept,
        );
        if answer.is_err() {
            kept.clear();
        }
        let (number, best, kind) = answer::play(answer);
        Ok(
            fields.is(number)
                && fields.is(best)
                && fields.is(kept.len())
                && fields.are(&kept)
                && fields.is(kind)
                && fields.is_empty(),
        )
    }

    // Short (1 sheet, 2 leave), counted tally; no, best.
    pub(crate) fn best_equity_of(&self, mut fields: Fields<'_>) -> Result<bool, Fault> {
        let short = Short::read(&mut fields, &[Part::Sheet, Part::Leave])?;
        let tally = fields.list(self.alloc, MOST_TILES)?;
        let (number, best) = answer::best(calls::best_equity_of(
            self.lattice,
            short.cut(Part::Sheet, &self.sheet),
            short.cut(Part::Leave, &self.leave),
            &tally,
        ));
        Ok(fields.is(number) && fields.is(best) && fields.is_empty())
    }

    // Short (1 sheet, 2 leave, 3 out), fill; no, out after.
    pub(crate) fn best_equity_table(&self, mut fields: Fields<'_>) -> Result<bool, Fault> {
        let short = Short::read(&mut fields, &[Part::Sheet, Part::Leave, Part::Out])?;
        let fill = fields.read::<i32>()?;
        let len = short.len_of(Part::Out, self.len());
        let mut out = filled(self.alloc, fill, len, MOST_VALUES)?;
        let number = number(calls::best_equity_table(
            self.lattice,
            short.cut(Part::Sheet, &self.sheet),
            short.cut(Part::Leave, &self.leave),
            &mut out,
        ));
        Ok(fields.is(number) && fields.are(&out) && fields.is_empty())
    }

    // Short (1 leave), counted tally, keep; no, value, rank.
    pub(crate) fn best_keep_of(&self, mut fields: Fields<'_>) -> Result<bool, Fault> {
        let short = Short::read(&mut fields, &[Part::Leave])?;
        let tally = fields.list(self.alloc, MOST_TILES)?;
        let keep = fields.read()?;
        let leave = short.cut(Part::Leave, &self.leave);
        let (number, value, rank) = answer::keep(calls::best_keep_of(
            self.lattice,
            leave,
            &tally,
            keep,
        ));
        Ok(fields.is(number) && fields.is(value) && fields.is(rank) && fields.is_empty())
    }
}
