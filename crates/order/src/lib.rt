//! The tally that comes next in rank order.
#![tactic(auto)]

ghost use Rattle.std.specs.Prelude.{◌≡◌, ◌+◌, ◌-◌, ◌*◌, ◌/◌, ◌^◌, ◌≤◌, ◌<◌, length};
ghost use Rattle.lattice.specs.Tally.{total};
ghost use Rattle.order.specs.Next.{Next};
ghost use Rattle.runs.specs.Runs.{mark, present};

use runs::next_run;

// The word of the next tally, from that of the letters up to the one that gets a tile: this one is
// then there, and of those after it only the last can be, which gets all but one of count tiles.
#[tactic(auto, using(runs::specs::Runs::mark_some, runs::specs::Runs::mark_none))]
fn next_word(rest: u64, after: usize, count: u8) -> u64
    requires after { after < 64 }
    requires fits { (rest / 2 * 2 + 1) * 2 ^ after + mark (count - 1) < 2 ^ 64 }
    ensures { result ≡ (rest / 2 * 2 + 1) * 2 ^ after + mark (count - 1) }
{
    let word = (rest / 2 * 2 + 1) << after;
    if 1 < count { word + 1 } else { word }
}

/// The tally that comes next in rank order: of the last letter that is there one tile goes to the
/// letter before it, and its others to the last letter of all; where only the first letter is
/// there, or none, all tiles go to the last letter, and one more. `word` has the letters that the
/// tally has, and the answer those of the next.
pub fn next_tally(tally: &mut [u8], word: u64) -> u64
    requires some { 0 < length tally.old }
    requires letters { length tally.old ≤ 64 }
    requires tiles { total tally.old < 255 }
    requires word { word ≡ present tally.old }
    ensures next { Next tally.old tally.new }
    ensures word { result ≡ present tally.new }
{
    let n = tally.len();
    if word == 0 {
        tally[n - 1] = 1;
        return 1;
    }
    let run = next_run(tally, word, n);
    let last = run.stop - 1;
    let count = tally[last];
    tally[last] = 0;
    if last == 0 {
        tally[n - 1] = count + 1;
        return 1;
    }
    tally[last - 1] += 1;
    tally[n - 1] = count - 1;
    next_word(run.rest, n - last, count)
}
