//! Maxima, sums and draws: calls 24 to 32.
use crate::answer;
use crate::case::Case;
use crate::lent::{MOST_VALUES, Part, Short, filled};
use cases::{Fault, Fields};
use draws::dynamic_leave_value;
use fused::calls::apportion_fused;
use fused::mode::Mode;
use maxima::calls::subset_max_transform;
use refusal::number;
use table_sums::apportion_table;

fn set(sum: Option<&mut f64>, value: f64) {
    if let Some(sum) = sum {
        *sum = value;
    }
}

/// Sums before a call: +0.0, but for what is dirty, 1 the first of num, 2 the last of den, 3 the
/// last of ways.
fn soil(dirty: u64, num: &mut [f64], den: &mut [f64], ways: &mut [f64]) {
    match dirty {
        1 => set(num.first_mut(), 1.0),
        2 => set(den.last_mut(), -0.0),
        3 => set(ways.last_mut(), 1.0),
        _ => {}
    }
}

/// The letter table as it is lent, which may be empty.
fn letters_lent(has_letters: bool, short: Short, by_letter: &[u32]) -> &[u32] {
    if has_letters {
        short.cut(Part::ByLetter, by_letter)
    } else {
        &[]
    }
}

impl Case {
    // 0 (of the sheet) or 1 (of the leave), short (1 src, 2 dst, 3 add table, 4 letter table),
    // letters, damage, fill; no, dst after.
    pub(crate) fn subset_max_transform(&self, mut fields: Fields<'_>) -> Result<bool, Fault> {
        let source = match fields.number()? {
            0 => &self.sheet,
            _ => &self.leave,
        };
        let parts = [Part::Source, Part::Out, Part::Add, Part::ByLetter];
        let short = Short::read(&mut fields, &parts)?;
        let has_letters = fields.number()? != 0;
        let (add, by_letter) = self.damaged(fields.number()?)?;
        let fill = fields.read::<i32>()?;
        let len = short.len_of(Part::Out, self.len());
        let mut out = filled(self.alloc, fill, len, MOST_VALUES)?;
        let number = number(subset_max_transform(
            self.lattice,
            short.cut(Part::Add, &add),
            letters_lent(has_letters, short, &by_letter),
            short.cut(Part::Source, source),
            &mut out,
        ));
        Ok(fields.is(number) && fields.are(&out) && fields.is_empty())
    }

    // Short (1 best, 2 pool, 3 num, 4 den), dirty; no, num after, den after.
    pub(crate) fn apportion_table(&self, mut fields: Fields<'_>) -> Result<bool, Fault> {
        let parts = [Part::Best, Part::Pool, Part::Num, Part::Den];
        let short = Short::read(&mut fields, &parts)?;
        let mut num = self.sums(short, Part::Num, self.len())?;
        let mut den = self.sums(short, Part::Den, self.len())?;
        soil(fields.number()?, &mut num, &mut den, &mut []);
        let number = number(apportion_table(
            self.lattice,
            short.cut(Part::Best, &self.best),
            short.cut(Part::Pool, &self.pool),
            &mut num,
            &mut den,
        ));
        Ok(fields.is(number) && fields.are(&num) && fields.are(&den) && fields.is_empty())
    }

    // zeta, null_leave, scatter, letters, short (1 sheet, 2 leave, 3 pool, 4 num, 5 den, 6 ways,
    // 7 maxsheet, 8 add table, 9 letter table), damage, leave_max, dirty, fill; no, maxsheet after,
    // num, den and ways after.
    pub(crate) fn apportion_fused(&self, mut fields: Fields<'_>) -> Result<bool, Fault> {
        let mode = Mode {
            zeta: fields.number()? == 1,
            null_leave: fields.number()? == 1,
            scatter: fields.number()? == 1,
        };
        let has_letters = fields.number()? != 0;
        let parts = [
            Part::Sheet,
            Part::Leave,
            Part::Pool,
            Part::Num,
            Part::Den,
            Part::Ways,
            Part::Out,
            Part::Add,
            Part::ByLetter,
        ];
        let short = Short::read(&mut fields, &parts)?;
        let (add, by_letter) = self.damaged(fields.number()?)?;
        let leave_max = self.leave_max(fields.number()?)?;
        let leaves = self.leaves();
        let mut num = self.sums(short, Part::Num, leaves)?;
        let mut den = self.sums(short, Part::Den, leaves)?;
        let mut ways = self.sums(short, Part::Ways, self.len().saturating_sub(leaves))?;
        soil(fields.number()?, &mut num, &mut den, &mut ways);
        let fill = fields.read::<i32>()?;
        let len = short.len_of(Part::Out, self.len());
        let mut max_sheet = filled(self.alloc, fill, len, MOST_VALUES)?;
        let number = number(apportion_fused(
            self.lattice,
            short.cut(Part::Add, &add),
            letters_lent(has_letters, short, &by_letter),
            short.cut(Part::Sheet, &self.sheet),
            short.cut(Part::Leave, &self.leave),
            &leave_max,
            short.cut(Part::Pool, &self.pool),
            &mut num,
            &mut den,
            &mut ways,
            &mut max_sheet,
            mode,
        ));
        Ok(
            fields.is(number)
                && fields.are(&max_sheet)
                && fields.are(&num)
                && fields.are(&den)
                && fields.are(&ways)
                && fields.is_empty(),
        )
    }

    // idx, draw, short (1 best, 2 pool, 3 add table), damage; no, value.
    pub(crate) fn dynamic_leave_value(&self, mut fields: Fields<'_>) -> Result<bool, Fault> {
        let idx = fields.read()?;
        let draw = fields.read()?;
        let short = Short::read(&mut fields, &[Part::Best, Part::Pool, Part::Add])?;
        let (add, _) = self.damaged(fields.number()?)?;
        let (number, mean) = answer::mean(dynamic_leave_value(
            self.lattice,
            short.cut(Part::Add, &add),
            short.cut(Part::Best, &self.best),
            short.cut(Part::Pool, &self.pool),
            idx,
            draw,
        ));
        Ok(fields.is(number) && fields.is(mean) && fields.is_empty())
    }

    /// Sums of +0.0, of a length that a part should have.
    fn sums(&self, short: Short, part: Part, len: usize) -> Result<Vec<f64>, Fault> {
        filled(self.alloc, 0.0, short.len_of(part, len), MOST_VALUES)
    }

    /// What is handed over as the leave's subset maximum: 0 nothing, 1 the maximum, 2 the same with
    /// entry 0 one greater, 3 the same without its last entry.
    fn leave_max(&self, kind: u64) -> Result<Vec<i32>, Fault> {
        if kind == 0 {
            return Ok(Vec::new(self.alloc));
        }
        let mut max = filled(self.alloc, 0, self.len(), MOST_VALUES)?;
        let _ = subset_max_transform(
            self.lattice,
            &self.add,
            &self.by_letter,
            &self.leave,
            &mut max,
        );
        match kind {
            2 => {
                if let Some(first) = max.first_mut() {
                    *first = first.saturating_add(1);
                }
            }
            3 => {
                max.pop();
            }
            _ => {}
        }
        Ok(max)
    }
}
