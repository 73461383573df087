//! What a call reads beside the tables of ranks.
use crate::mode::Mode;

/// The sheet, the leaves' worth and its subset maximum, by rank; the pool's count of each letter;
/// and the settings.
#[derive(Clone, Copy, Debug, PartialEq, Eq, Hash)]
pub struct Board<'a> {
    pub sheet: &'a [i32],
    pub leave: &'a [i32],
    pub leave_max: &'a [i32],
    pub unseen: &'a [u8],
    pub mode: Mode,
}
