//! The letters that a tally has, as a word of bits: one run of tiles after another is read off it.
#![tactic(auto)]

ghost use Rattle.std.specs.Prelude.{◌≡◌, ◌≤◌, ◌↔◌, length, take, IsTrue, MatchOption};
ghost use Rattle.std.specs.Int.Count.{ones};
ghost use Rattle.runs.specs.Runs.{present, RunAt, SplitsAt};

/// The letters that a tally has: a bit for each, the last letter's lowest.
// Not a `fold` (S): it takes a twelfth more time.
pub fn letters_of(tally: &[u8]) -> u64
    requires { length tally.now ≤ 64 }
    ensures { result ≡ present tally.now }
{
    let mut word: u64 = 0;
    for &count in tally {
        word = word * 2 + u64::from(count != 0);
    }
    word
}

/// The last letter of a word: the letters up to it, and the word of those before it.
#[derive(Clone, Copy, Debug, PartialEq, Eq, Hash)]
pub struct Run {
    pub stop: usize,
    pub rest: u64,
}

/// The last letter that is there among the first i.
// Beside `split_last` (N): order and extensions change the tally, which `Runs` would borrow.
#[inline]
pub fn next_run(tally: &[u8], word: u64, i: usize) -> Run
    requires inside { i ≤ length tally.now }
    requires word { word ≡ present (take i tally.now) }
    requires some { ones word ≡ 0 → ⊥ }
    ensures { RunAt tally.now i result.stop result.rest }
{
    let z = u64::trailing_zeros(word) as usize;
    Run {
        stop: i - z,
        rest: (word >> z) / 2,
    }
}

/// The last run of some letters: the letters up to it, and its tiles.
#[derive(Clone, Copy, Debug, PartialEq, Eq, Hash)]
pub struct LastRun {
    pub stop: usize,
    pub count: usize,
}

/// The runs of tiles that the first `stop` letters of a tally have, as a word of bits: a bit for
/// each letter, the last letter's lowest. Its trailing zeros lead to the last run.
#[derive(Clone, Copy, Debug)]
pub struct Runs<'a> {
    pub tally: &'a [u8],
    pub stop: usize,
    pub word: u64,
    pub ghost few: { length tally.now ≤ 64 },
    pub ghost inside: { stop ≤ length tally.now },
    pub ghost letters: { word ≡ present (take stop tally.now) },
}

impl<'a> Runs<'a> {
    /// The runs of a tally.
    pub fn of(tally: &'a [u8]) -> Runs<'a>
        requires { length tally.now ≤ 64 }
        ensures tally { result.tally.now ≡ tally.now }
        ensures stop { result.stop ≡ length tally.now }
    {
        Runs::first(tally, tally.len())
    }

    /// The runs of the first `stop` letters of a tally.
    pub fn first(tally: &'a [u8], stop: usize) -> Runs<'a>
        requires few { length tally.now ≤ 64 }
        requires inside { stop ≤ length tally.now }
        ensures tally { result.tally.now ≡ tally.now }
        ensures stop { result.stop ≡ stop }
    {
        Runs {
            tally,
            stop,
            word: letters_of(&tally[..stop]),
        }
    }

    /// Whether no letter is there.
    #[inline]
    pub fn is_empty(self) -> bool
        ensures { IsTrue result ↔ (present (take self.entry.stop self.entry.tally.now) ≡ 0) }
    {
        self.word == 0
    }

    /// The last run, and the runs before it.
    #[inline]
    pub fn split_last(self) -> Option<(LastRun, Runs<'a>)>
        ensures { MatchOption result (present (take self.entry.stop self.entry.tally.now) ≡ 0)
            (λ split. SplitsAt self.entry.tally.now self.entry.stop split.0.stop split.0.count
            split.1.tally.now split.1.stop) }
    {
        if self.word == 0 {
            return None;
        }
        let run = next_run(self.tally, self.word, self.stop);
        let letter = run.stop - 1;
        let last = LastRun {
            stop: run.stop,
            count: usize::from(self.tally[letter]),
        };
        let before = Runs {
            tally: self.tally,
            stop: letter,
            word: run.rest,
        };
        Some((last, before))
    }
}
