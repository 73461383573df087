//! The answers of the library's calls, each as a list gives it: the number of a refusal, 0 where
//! there is none, and the values, or what stands for them where the call is refused.
// A number beside a value (N): a list has these numbers, one after the other. census makes the same
// of an answer, in structs: the C interface's structs are no part of a list.
use refusal::{Refusal, number};
use search::Kept;
use search::calls::Play;
use whole::UNPLAYABLE;

/// The rank that stands for none.
// (N): the list's format says it; census, which says it of the C interface, is not used here.
const NO_RANK: u32 = u32::MAX;

pub fn rank(answer: Result<u32, Refusal>) -> (u8, u32) {
    (number(answer), answer.unwrap_or(NO_RANK))
}

/// A length or a start, 0 where the sizes are refused.
// (N): where the sizes are refused, the tables are empty.
pub fn size(answer: Result<u32, Refusal>) -> usize {
    answer.unwrap_or(0) as usize
}

pub fn best(answer: Result<i32, Refusal>) -> (u8, i32) {
    (number(answer), answer.unwrap_or(UNPLAYABLE))
}

pub fn keep(answer: Result<Option<Kept>, Refusal>) -> (u8, i32, u32) {
    match answer {
        Ok(Some(found)) => (0, found.value, found.rank),
        _ => (number(answer), UNPLAYABLE, NO_RANK),
    }
}

/// The kind comes last: 0 no move, 1 a word, 2 an exchange.
pub fn play(answer: Result<Play, Refusal>) -> (u8, i32, u8) {
    match answer {
        Ok(play) => (0, play.best, u8::from(play.kind)),
        Err(refusal) => (u8::from(refusal), UNPLAYABLE, 0),
    }
}

pub fn mean(answer: Result<Option<i32>, Refusal>) -> (u8, i32) {
    (number(answer), answer.unwrap_or(None).unwrap_or(UNPLAYABLE))
}
