//! The settings of a call.
ghost use Rattle.std.specs.Prelude.{◌≡◌};
ghost use Rattle.fused.specs.Answer.{sheet_alone, in_force};
ghost use Rattle.fused.specs.Source.{source_of};

/// Whether the sums are folded letter by letter, whether the tiles kept are worth nothing, and
/// whether words are scattered.
// (C): docs/SCOPE.md names three flags; where they take a best from is `Source`.
#[derive(Clone, Copy, Debug, PartialEq, Eq, Hash)]
pub struct Mode {
    pub zeta: bool,
    pub null_leave: bool,
    pub scatter: bool,
}

/// Where a rack's best is taken from: the subset maximum of the sheet alone, the scatter, or the
/// best split.
#[derive(Clone, Copy, Debug, PartialEq, Eq, Hash)]
pub enum Source {
    Sheet,
    Scatter,
    Split,
}

impl Mode {
    /// Whether the best is the subset maximum of the sheet alone.
    pub fn sheet_alone(self) -> bool
        ensures { result ≡ sheet_alone self }
    {
        self.zeta && self.null_leave
    }

    /// Whether scatter is in force.
    pub fn in_force(self) -> bool
        ensures { result ≡ in_force self }
    {
        self.scatter && self.zeta && !self.null_leave
    }

    /// Where the bests are taken from.
    pub fn source(self) -> Source
        ensures { result ≡ source_of self }
    {
        if self.sheet_alone() {
            Source::Sheet
        } else if self.in_force() {
            Source::Scatter
        } else {
            Source::Split
        }
    }
}
