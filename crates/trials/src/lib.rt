//! The cases of a list, each run through the call that it names and compared with its record.
// (N): what a record says by a number (what is dirty, damaged or handed over) is read in one place,
// beside the list of its numbers: an enum for each would say them twice.
#![tactic(auto)]

mod answer;
mod case;
mod lent;
mod outcome;
mod play_calls;
mod rank_calls;
mod sum_calls;
mod table_calls;
mod variant_calls;

pub use case::{Case, MOST_NUMBERS};
pub use outcome::Outcome;
