//! A word of a list, gathered a byte at a time.
ghost use Rattle.std.specs.Prelude.{◌≡◌, ◌≢◌, ℕ, ◌<◌, ◌≤◌, List, [], ◌∷◌, ◌++◌, length, max};
ghost use Rattle.std.specs.Prelude.{remove, vec_len, IsTrue, IfSome, IsNone, OnOk, OnErr};
ghost use Rattle.cases.specs.Word.{Says, SaysTheSame};
ghost use Rattle.cases.specs.declared.word.TheConstants.{MOST_BYTES};

use std::alloc::AllocError;

/// How many bytes of a word are kept at most. A minus and the digits of a number are fewer, but for
/// leading zeros.
pub const MOST_BYTES: usize = 22;

/// The place of a leading zero that a digit follows.
fn superfluous_zero(word: &[u8]) -> Option<usize>
    ensures place { IfSome result (λ at. at < length word.now) }
    ensures same { IfSome result (λ at. SaysTheSame word.now (remove word.now at)) }
    ensures none { IsNone result → MOST_BYTES ≤ length word.now
        → (n : ℕ) (more : List ℕ) → ¬ Says n (word.now ++ more) }
{
    match word {
        [b'0', b'0'..=b'9', ..] => Some(0),
        [b'-', b'0', b'0'..=b'9', ..] => Some(1),
        _ => None,
    }
}

/// Whether a word is a lone zero, after which another says nothing more.
fn is_zero(word: &[u8]) -> bool
    ensures same { IsTrue result → SaysTheSame (word.now ++ 48 ∷ []) word.now }
    ensures some { IsTrue result → word.now ≢ [] }
{
    matches!(word, [b'0'] | [b'-', b'0'])
}

/// Adds a byte to a word. No more of the word is kept than tells what number it says, whatever
/// bytes follow: a leading zero goes, and so does a byte after too long a start.
pub fn push_byte(word: &mut Vec<u8>, byte: u8) -> Result<(), AllocError>
    ensures same { OnOk result (SaysTheSame (word.old.items ++ byte ∷ []) word.new.items) }
    ensures some { OnOk result (word.new.items ≢ []) }
    ensures short { vec_len word.new ≤ max (vec_len word.old) MOST_BYTES }
    ensures err { OnErr result (word.new.items ≡ word.old.items) }
{
    // (S): at once, since to remove a zero from a full word moves the bytes after it.
    if byte == b'0' && is_zero(word) {
        return Ok(());
    }
    if MOST_BYTES <= word.len() {
        let Some(zero) = superfluous_zero(word) else {
            return Ok(());
        };
        word.remove(zero);
    }
    word.push(byte)?;
    Ok(())
}
