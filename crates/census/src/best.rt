ghost use Rattle.std.specs.Prelude.{◌≡◌};
ghost use Rattle.refusal.specs.Refusal.{number_of};
ghost use Rattle.search.specs.Split.{best_split};
ghost use Rattle.search.specs.BestKeep.{best_keep};
ghost use Rattle.search.specs.Order.{kept};
ghost use Rattle.search.specs.Refusals.{rack_number, leave_number};
ghost use Rattle.search.specs.Answers.{best_value, keep_value, move_value, move_kind, Tabled};
ghost use Rattle.census.specs.Plain.{PlainBest, PlainKeep, kind_byte, PlainPlay};

use crate::ranks::NONE;
use lattice::Lattice;
use refusal::{Refusal, number};
use search::Kept;
use search::calls::{self, best_equity_of, best_equity_table, best_keep_of, naive_best_equity};
use whole::UNPLAYABLE;

/// A best or a mean with the number of its refusal: UNPLAYABLE where refused, and where there is no
/// draw.
#[repr(C)]
#[derive(Clone, Copy, Debug, PartialEq, Eq, Hash)]
pub struct Equity {
    pub number: u8,
    pub value: i32,
}

/// The best leave's value and rank with the number of their refusal: UNPLAYABLE and `NONE` where
/// refused, and where no leave is given.
#[repr(C)]
#[derive(Clone, Copy, Debug, PartialEq, Eq, Hash)]
pub struct Leave {
    pub number: u8,
    pub value: i32,
    pub rank: u32,
}

/// A best with the number of its refusal and the kind of the move: 0 no move, 1 a word, 2 an
/// exchange. UNPLAYABLE and no move where refused.
#[repr(C)]
#[derive(Clone, Copy, Debug, PartialEq, Eq, Hash)]
pub struct Play {
    pub number: u8,
    pub kind: u8,
    pub value: i32,
}

impl From<Result<i32, Refusal>> for Equity {
    ghost from_gives = { λ answer equity. (equity.number ≡ number_of answer)
        × (equity.value ≡ best_value answer) };

    #[tactic(auto, unfolding(search::specs::Answers::best_value))]
    fn from(answer: Result<i32, Refusal>) -> Equity {
        Equity {
            number: number(answer),
            value: answer.unwrap_or(UNPLAYABLE),
        }
    }
}

impl From<Result<Option<Kept>, Refusal>> for Leave {
    ghost from_gives = { λ answer leave. (leave.number ≡ number_of answer)
        × (kept leave.value leave.rank ≡ keep_value answer) };

    #[tactic(auto, unfolding(search::specs::Answers::keep_value))]
    fn from(answer: Result<Option<Kept>, Refusal>) -> Leave {
        match answer {
            Ok(Some(found)) => Leave {
                number: 0,
                value: found.value,
                rank: found.rank,
            },
            _ => Leave {
                number: number(answer),
                value: UNPLAYABLE,
                rank: NONE,
            },
        }
    }
}

impl From<Result<calls::Play, Refusal>> for Play {
    ghost from_gives = { λ answer play. (play.number ≡ number_of answer)
        × (play.kind ≡ kind_byte (move_kind answer)) × (play.value ≡ move_value answer) };

    #[tactic(auto, unfolding(search::specs::Answers::move_value, search::specs::Answers::move_kind, search::specs::Answers::kind_of, crate::specs::Plain::kind_byte))]
    fn from(answer: Result<calls::Play, Refusal>) -> Play {
        match answer {
            Ok(play) => Play {
                number: 0,
                // A number (C): an enum does not cross.
                kind: u8::from(play.kind),
                value: play.best,
            },
            Err(refusal) => Play {
                number: u8::from(refusal),
                kind: 0,
                value: UNPLAYABLE,
            },
        }
    }
}

#[unsafe(no_mangle)]
pub extern "C" fn census_best_equity_of(
    n: usize,
    r: usize,
    sheet: &[i32],
    leave: &[i32],
    tally: &[u8],
) -> Equity
    ensures { PlainBest (rack_number n r sheet.now leave.now tally.now)
        (best_split sheet.now leave.now n tally.now) result.number result.value }
{
    Equity::from(best_equity_of(Lattice { n, r }, sheet, leave, tally))
}

#[unsafe(no_mangle)]
pub extern "C" fn census_best_equity_table(
    n: usize,
    r: usize,
    sheet: &[i32],
    leave: &[i32],
    out: &mut [i32],
) -> u8
    ensures { Tabled n r sheet.now leave.now out.old result out.new }
{
    number(best_equity_table(Lattice { n, r }, sheet, leave, out))
}

#[unsafe(no_mangle)]
pub extern "C" fn census_best_keep_of(
    n: usize,
    r: usize,
    leave: &[i32],
    tally: &[u8],
    keep: usize,
) -> Leave
    ensures { PlainKeep (leave_number n r leave.now tally.now)
        (best_keep leave.now n tally.now keep) result.number result.value result.rank }
{
    Leave::from(best_keep_of(Lattice { n, r }, leave, tally, keep))
}

/// The kept tally is written into its slice, where the call is accepted.
#[unsafe(no_mangle)]
pub extern "C" fn census_naive_best_equity(
    n: usize,
    r: usize,
    sheet: &[i32],
    leave: &[i32],
    tally: &[u8],
    kept: &mut [u8],
) -> Play
    ensures { PlainPlay n r sheet.now leave.now tally.now «kept».old
        result.number result.kind result.value «kept».new }
{
    Play::from(naive_best_equity(Lattice { n, r }, sheet, leave, tally, kept))
}
