//! A list of comparison cases (its format: compare/README.md): its records, taken a word at a
//! time, and the numbers of a record, read and compared. A number below 0 is kept as its two's
//! complement in 64 bits.
#![tactic(auto)]

mod call;
mod fault;
mod fields;
mod reading;
mod recorded;
mod word;

pub use call::{Call, UnknownCall};
pub use fault::Fault;
pub use fields::Fields;
pub use reading::{ListError, MOST_KEPT, Reading, is_blank};
pub use recorded::{Recorded, same};
pub use word::{MOST_BYTES, push_byte};
