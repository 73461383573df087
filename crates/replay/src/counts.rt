ghost use Rattle.std.specs.Prelude.{◌≤◌};

use cases::Call;
use std::{fmt, io};
use trials::Outcome;

/// How many records agreed, differed or are not served.
#[derive(Clone, Copy, Debug, Default, PartialEq, Eq, Hash)]
pub struct Tally {
    agreed: u64,
    differed: u64,
    not_served: u64,
}

impl Tally {
    fn add(&mut self, outcome: Outcome) {
        let count = match outcome {
            Outcome::Agreed => &mut self.agreed,
            Outcome::Differed => &mut self.differed,
            Outcome::NotServed => &mut self.not_served,
            Outcome::Set => return,
        };
        *count = count.saturating_add(1);
    }

    // By a name (N): it saturates, which a `+` does not say.
    fn plus(self, other: Tally) -> Tally {
        Tally {
            agreed: self.agreed.saturating_add(other.agreed),
            differed: self.differed.saturating_add(other.differed),
            not_served: self.not_served.saturating_add(other.not_served),
        }
    }
}

impl fmt::Display for Tally {
    fn fmt<W: fmt::Write>(&self, f: &mut fmt::Formatter<W>) -> fmt::Result {
        let Tally {
            agreed,
            differed,
            not_served,
        } = self;
        write!(
            f,
            "{agreed} agreed, {differed} differed, {not_served} not served"
        )
    }
}

/// The tallies of all records, by their first numbers: each number below 63 has a tally, also one
/// that no call has, and the last is of what has none or a greater one.
// By number (N): a map from `Call` could fail to grow, and the numbers that no call has would be
// counted apart from it.
#[derive(Clone, Copy, Debug)]
pub struct Counts([Tally; 64]);

/// Where a record is counted, by its first number, if it has one.
fn slot(number: Option<u64>) -> usize
    ensures { result ≤ 63 }
{
    match number {
        Some(number) if number < 63 => number as usize,
        _ => 63,
    }
}

impl Counts {
    pub fn new() -> Self {
        Counts([Tally::default(); 64])
    }

    /// Counts a record of a call.
    pub fn add(&mut self, number: Option<u64>, outcome: Outcome) {
        self.0[slot(number)].add(outcome);
    }

    /// Prints a line for each call, and all calls last. Records that give a list have a line only
    /// where one is wrong.
    pub fn report(&self, rt: &impl Print) -> io::Result<()> {
        for call in Call::ALL {
            let tally = self.0[slot(Some(call as u64))];
            if !call.is_list() || tally.differed != 0 {
                println!(rt; "{call}: {tally}")?;
            }
        }
        println!(rt;
            "{}",
            self.0
                .iter()
                .fold(Tally::default(), |all, tally| all.plus(*tally))
        )
    }
}
