/// What came of a record.
#[derive(Clone, Copy, Debug, PartialEq, Eq, Hash)]
pub enum Outcome {
    Agreed,
    Differed,
    /// It names no call of the format.
    NotServed,
    /// It gave a list that later records use.
    Set,
}
