//! The walk over the choices of blanks among sorted tiles: every play raises its entry of the
//! sheet.
ghost use Rattle.std.specs.Prelude.{◌≡◌, ℕ, suc, ◌+◌, ◌-◌, ◌*◌, ◌^◌, ◌≤◌, ◌<◌};
ghost use Rattle.std.specs.Prelude.{nat_abs, pos, ◌-ℤ◌, length, get_or, take, replicate};
ghost use Rattle.std.specs.Int.Count.{ones};
ghost use Rattle.lattice.specs.Tally.{start};
ghost use Rattle.lattice.specs.Step.{step};
ghost use Rattle.blanks.specs.Raise.{Raised};
ghost use Rattle.maxima.specs.Maxima.{raise as raised};
ghost use Rattle.runs.specs.Runs.{mark, present};
ghost use Rattle.blanks.specs.Tallied.{Tallied};
ghost use Rattle.blanks.specs.Ready.{less, Small, Board, Heads, Finds};
ghost use Rattle.blanks.specs.Tails.{Tails};

use binomials::choose;
use lattice::{past, start_of};
use maxima::raise;
use runs::{Runs, next_run};

/// The word of letters with one more tile of the letter that has p letters after it: its bit is
/// added where it had no tile.
// Added (N): `|` would ask of the word that it has the bits of the letters with tiles, no others.
#[tactic(auto, using(runs::specs::Runs::mark_none, runs::specs::Runs::mark_some))]
fn with_letter(word: u64, count: u8, p: usize) -> u64
    requires bit { p < 64 }
    requires fits { word + (1 - mark count) * 2 ^ p < 2 ^ 64 }
    ensures { result ≡ word + (1 - mark count) * 2 ^ p }
{
    if count == 0 { word + (1 << p) } else { word }
}

/// How many tiles each letter from 1 on has, into a slice of zeros: the blank is not placed. Gives
/// the word of the letters that are there.
fn tally_letters(letters: &[u8], tally: &mut [u8]) -> u64
    requires clear { tally.old ≡ replicate (length tally.old) 0 }
    requires few { length letters.now ≤ 15 }
    requires letters { length tally.old ≤ 64 }
    requires real { (j : ℕ) → j < length letters.now
        → (0 < get_or letters.now j 0) × (get_or letters.now j 0 < suc (length tally.old)) }
    ensures tally { Tallied letters.now tally.new }
    ensures word { result ≡ present tally.new }
{
    // The word is made on the way (S): letters_of goes over every letter, not over the placed tiles
    // alone, and tally and word then take half as long again.
    let mut word: u64 = 0;
    for &letter in letters {
        let l = usize::from(letter);
        let x = l - 1;
        let count = tally[x];
        word = with_letter(word, count, tally.len() - l);
        tally[x] = count + 1;
    }
    word
}

/// v less the first b drops from `at` on.
fn lowered(drops: &[i32], at: usize, b: usize, v: i32) -> i32
    requires inside { at + b ≤ length drops.now }
    requires small { Small drops.now }
    requires bound { nat_abs v + 16777215 * b ≤ 788529136 }
    ensures { result ≡ less v drops.now at b }
{
    // Not a fold (P): that each difference fits is not shown of its closure.
    let mut value = v;
    for drop in &drops[at..at + b] {
        value -= *drop;
    }
    value
}

/// v less the drop at a place, if that is before `end`.
fn lower(drops: &[i32], at: usize, end: usize, v: i32) -> i32
    requires inside { end ≤ length drops.now }
    requires small { Small drops.now }
    requires bound { nat_abs v ≤ 788529136 }
    ensures { at < end → result ≡ v -ℤ get_or drops.now at (pos 0) }
{
    if at < end {
        let d = drops[at];
        return v - d;
    }
    v
}

/// Where the plays of so many tiles begin that have k blanks, before what their real tiles add;
/// those of one tile more begin at `top`.
fn head(n: usize, size: usize, top: usize, k: usize) -> usize
    requires some { 1 ≤ n }
    requires letters { n ≤ 64 }
    requires tiles { size ≤ 15 }
    requires blanks { k ≤ size }
    requires top { top ≡ start n (size + 1) }
    ensures { result ≡ start n size + step (n - 1) size k }
{
    top - choose(n - 1, size - k) as usize
}

/// The heads of the plays of so many tiles, up to so many blanks: a walk reads each of them often.
fn heads_of(n: usize, size: usize, blanks: usize) -> [usize; 16]
    requires some { 1 ≤ n }
    requires letters { n ≤ 64 }
    requires tiles { size ≤ 15 }
    ensures { Heads result n size blanks }
{
    let top = start_of(n, size + 1) as usize;
    let most = blanks.min(size);
    // Of fixed size (C): the calls have no heap.
    let mut heads = [0; 16];
    for (k, begin) in heads[..=most].iter_mut().enumerate() {
        *begin = head(n, size, top, k);
    }
    heads
}

/// What the first tiles add to the rank where all of them are real, at the end of each run of the
/// sorted tiles, into zeros; so many tiles are real in all. Gives how many tiles come before the
/// first run that has more than are unseen, or than can be real.
fn tails_of(
    letters: &[u8],
    drops: &[i32],
    unseen: &[u8],
    tally: &[u8],
    real: usize,
    tails: &mut [usize; 16],
) -> usize
    requires board { Board (2 ^ 64 - 1) letters.now drops.now unseen.now }
    requires letters { suc (length tally.now) ≡ length unseen.now }
    requires tally { Tallied letters.now tally.now }
    requires real { real ≤ length letters.now }
    requires clear { tails.old ≡ replicate 16 0 }
    ensures { Tails letters.now unseen.now (length tally.now) real tails.new result }
{
    let mut s = 0;
    let mut rank = 0;
    // A while (N): each run's tiles say where the next begins.
    while s < real {
        let l = usize::from(letters[s]);
        let count = usize::from(tally[l - 1]);
        let end = s + count;
        if real < end || usize::from(unseen[l]) < count {
            return s;
        }
        rank = past(tally.len() - l, real - end, rank, count);
        tails[end] = rank;
        s = end;
    }
    s
}

/// What a walk reads: the placed tiles in order, how many of each letter are unseen, how many of
/// each letter from 1 on are placed, and how many blanks there may be. `heads` and `tails` are made
/// of them: where the plays of each number of blanks begin, and what the first tiles add to the
/// rank where all of them are real. More than `free` tiles are not all real.
// Letters beside drops (N): the walk reads the drops alone, the facts below speak of both.
#[derive(Clone, Copy)]
struct Placed<'a> {
    letters: &'a [u8],
    drops: &'a [i32],
    unseen: &'a [u8],
    tally: &'a [u8],
    most: usize,
    heads: &'a [usize; 16],
    tails: &'a [usize; 16],
    free: usize,
    ghost heads_right: { Heads heads.now (length unseen.now) (length letters.now) most },
    ghost tails_right: { Tails letters.now unseen.now (length tally.now)
        (length letters.now - most) tails.now free },
}

/// How far a walk has come: the first tiles, which are of the letters from 1 to `letters`, are
/// still to choose. Of those after them so many are blanks, and so many are real and add `rank`.
// How many blanks are left goes beside it (N): each turn tests that, and a play's head is read by
// those it has; neither is then made of the other. The word of these letters, too (N): as Runs it
// would bring the tally a second time, and each contract would say of both that they are the same.
// The score so far as well (N): it is what a play writes, and no rank or number of tiles is made of
// it.
#[derive(Clone, Copy)]
struct Place {
    letters: usize,
    tiles: usize,
    blanks: usize,
    real: usize,
    rank: usize,
}

impl<'a> Placed<'a> {
    ghost use Rattle.blanks.specs.Standing.{Stands, Plays, TurnOf};

    /// Raises the sheet for a play of k blanks whose real tiles add w.
    fn raise_at(&self, sheet: &mut [i32], k: usize, w: usize, v: i32)
        requires few { k ≤ 15 }
        requires inside { get_or self.now.heads.now k 0 + w < length sheet.old }
        ensures { sheet.new ≡ raised sheet.old (get_or self.now.heads.now k 0 + w) v }
    {
        raise(sheet, self.heads[k] + w, v);
    }

    /// As walk, where no blank is left: every tile is real, and a letter with more tiles than are
    /// unseen leaves no play.
    fn all_real(&self, sheet: &mut [i32], place: Place, v: i32)
        requires ready { Stands (length sheet.old) self.now place v }
        requires blanks { place.blanks ≡ self.now.most }
        ensures { Raised sheet.old (Plays self.now place 0 v) sheet.new }
    {
        if place.tiles <= self.free {
            self.raise_at(sheet, place.blanks, place.rank + self.tails[place.tiles], v);
        }
    }

    /// As walk, for the plays that have one blank among the tiles of the last letter, which has so
    /// many, and no other.
    fn one_here(&self, sheet: &mut [i32], place: Place, count: usize, v: i32)
        requires ready { Stands (length sheet.old) self.now place v }
        requires letter { suc (place.letters - 1) ≡ place.letters }
        requires count { count ≡ get_or self.now.tally.now (place.letters - 1) 0 }
        requires some { 0 < count }
        requires fits { count - get_or self.now.unseen.now place.letters 0 ≤ 1 }
        requires blanks { place.blanks + 1 ≡ self.now.most }
        ensures { Raised sheet.old (TurnOf self.now place (place.tiles - count) 1 v 1) sheet.new }
    {
        let s = place.tiles - count;
        let x = count - 1;
        let y = past(self.tally.len() - place.letters, place.real, place.rank, x);
        let u = lower(self.drops, s, place.tiles, v);
        let next = Place {
            letters: place.letters - 1,
            tiles: s,
            blanks: place.blanks + 1,
            real: place.real + x,
            rank: y,
        };
        self.all_real(sheet, next, u);
    }

    /// As walk, where one blank is left: it is among the tiles of one of the letters, from the last
    /// back, or nowhere.
    fn one_left(&self, sheet: &mut [i32], place: Place, word: u64, v: i32)
        requires ready { Stands (length sheet.old) self.now place v }
        requires word { word ≡ present (take place.letters self.now.tally.now) }
        requires blanks { place.blanks + 1 ≡ self.now.most }
        ensures { Raised sheet.old (Plays self.now place 1 v) sheet.new }
    {
        let mut runs = Runs {
            tally: self.tally,
            stop: place.letters,
            word,
        };
        let mut tiles = place.tiles;
        let mut real = place.real;
        let mut rank = place.rank;
        // A while (N): the runs are no iterator, since a walk hands the rest on.
        while let Some((last, before)) = runs.split_last() {
            let count = last.count;
            let forced = count.saturating_sub(usize::from(self.unseen[last.stop]));
            if 1 < forced {
                return;
            }
            let here = Place {
                letters: last.stop,
                tiles,
                blanks: place.blanks,
                real,
                rank,
            };
            self.one_here(sheet, here, count, v);
            if forced == 1 {
                return;
            }
            rank = past(self.tally.len() - last.stop, real, rank, count);
            tiles -= count;
            real += count;
            runs = before;
        }
        self.raise_at(sheet, place.blanks, rank, v);
    }

    /// As walk, where at most one blank is left.
    fn few_left(&self, sheet: &mut [i32], place: Place, word: u64, left: usize, v: i32)
        requires ready { Stands (length sheet.old) self.now place v }
        requires word { word ≡ present (take place.letters self.now.tally.now) }
        requires blanks { place.blanks + left ≡ self.now.most }
        requires few { left ≤ 1 }
        ensures { Raised sheet.old (Plays self.now place left v) sheet.new }
    {
        if left == 0 {
            self.all_real(sheet, place, v);
        } else {
            self.one_left(sheet, place, word, v);
        }
    }

    /// As walk, where a letter is there: each number of blanks among the tiles of the last, from
    /// those that are forced. The many turns that leave at most one blank make no call of walk.
    #[cycle(turns_walk)]
    fn turns(&self, sheet: &mut [i32], place: Place, word: u64, left: usize, v: i32)
        requires ready { Stands (length sheet.old) self.now place v }
        requires word { word ≡ present (take place.letters self.now.tally.now) }
        requires some { ones word ≡ 0 → ⊥ }
        requires blanks { place.blanks + left ≡ self.now.most }
        ensures { Raised sheet.old (Plays self.now place left v) sheet.new }
    {
        let run = next_run(self.tally, word, place.letters);
        let letter = run.stop;
        let rest = run.rest;
        let before = letter - 1;
        let p = self.tally.len() - letter;
        let count = usize::from(self.tally[before]);
        let s = place.tiles - count;
        let forced = count.saturating_sub(usize::from(self.unseen[letter]));
        let most = count.min(left);
        let mut u = lowered(self.drops, s, forced, v);
        for b in forced..=most {
            let x = count - b;
            let y = past(p, place.real, place.rank, x);
            let still = left - b;
            let next = Place {
                letters: before,
                tiles: s,
                blanks: place.blanks + b,
                real: place.real + x,
                rank: y,
            };
            if still <= 1 {
                self.few_left(sheet, next, rest, still, u);
            } else {
                self.walk(sheet, next, rest, still, u);
            }
            u = lower(self.drops, s + b, place.tiles, u);
        }
    }

    /// Raises the sheet for every choice of blanks among the tiles that are still to choose. The
    /// letters that are there are the bits of a word: its ones are the letters left, and its
    /// trailing zeros lead to the last of them.
    #[cycle(turns_walk)]
    fn walk(&self, sheet: &mut [i32], place: Place, word: u64, left: usize, v: i32)
        requires ready { Stands (length sheet.old) self.now place v }
        requires word { word ≡ present (take place.letters self.now.tally.now) }
        requires blanks { place.blanks + left ≡ self.now.most }
        ensures { Raised sheet.old (Plays self.now place left v) sheet.new }
    {
        if word == 0 {
            self.raise_at(sheet, place.blanks, place.rank, v);
        } else {
            self.turns(sheet, place, word, left, v);
        }
    }
}

/// The walk over all tiles, which are in order, over a slice of zeros for the letters from 1 on.
// Slices one by one (C): they are those of the call, lent, and the sheet is written through.
pub fn raise_all(
    sheet: &mut [i32],
    score: i32,
    letters: &[u8],
    drops: &[i32],
    unseen: &[u8],
    blanks: usize,
    tally: &mut [u8],
)
    requires board { Board (length sheet.old) letters.now drops.now unseen.now }
    requires score { nat_abs score ≤ 536870911 }
    requires letters { suc (length tally.old) ≡ length unseen.now }
    requires clear { tally.old ≡ replicate (length tally.old) 0 }
    requires some { length letters.now ≡ 0 → ⊥ }
    ensures { Raised sheet.old
        (Finds letters.now drops.now unseen.now (length tally.old) (length letters.now) blanks
        0 0 0 score)
        sheet.new }
{
    let word = tally_letters(letters, tally);
    let heads = heads_of(unseen.len(), letters.len(), blanks);
    let real = letters.len().saturating_sub(blanks);
    // Of fixed size (C), as heads.
    let mut tails = [0; 16];
    let free = tails_of(letters, drops, unseen, tally, real, &mut tails);
    let placed = Placed {
        letters,
        drops,
        unseen,
        tally,
        most: blanks,
        heads: &heads,
        tails: &tails,
        free,
    };
    let place = Place {
        letters: tally.len(),
        tiles: letters.len(),
        blanks: 0,
        real: 0,
        rank: 0,
    };
    placed.turns(sheet, place, word, blanks, score);
}
