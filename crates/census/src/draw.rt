ghost use Rattle.std.specs.Prelude.{◌≡◌};
ghost use Rattle.refusal.specs.Refusal.{number_of};
ghost use Rattle.draws.specs.Draws.{value};
ghost use Rattle.census.specs.Plain.{PlainDraw};

use crate::best::Equity;
use draws::dynamic_leave_value;
use lattice::Lattice;
use refusal::{Refusal, number};
use whole::UNPLAYABLE;

impl From<Result<Option<i32>, Refusal>> for Equity {
    ghost from_gives = { λ answer equity. (equity.number ≡ number_of answer)
        × (equity.value ≡ value answer) };

    fn from(answer: Result<Option<i32>, Refusal>) -> Equity {
        Equity {
            number: number(answer),
            value: answer.unwrap_or(None).unwrap_or(UNPLAYABLE),
        }
    }
}

/// UNPLAYABLE also where there is no draw.
#[unsafe(no_mangle)]
pub extern "C" fn census_dynamic_leave_value(
    n: usize,
    r: usize,
    add: &[u32],
    full_v: &[i32],
    pool: &[u8],
    s_ridx: usize,
    draw: usize,
) -> Equity
    ensures { PlainDraw n r add.now full_v.now pool.now s_ridx draw result.number result.value }
{
    let answer = dynamic_leave_value(Lattice { n, r }, add, full_v, pool, s_ridx, draw);
    Equity::from(answer)
}
