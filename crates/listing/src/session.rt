//! The text of a listing, taken byte by byte.

ghost use Rattle.std.specs.Prelude.{◌≡◌, ℕ, List, [], ◌∷◌, ◌++◌, Err, IfErr, IsOk, OnErr, OnOk};
ghost use Rattle.listing.specs.Reading.{reading, IsRefused};
ghost use Rattle.listing.specs.Taken.{Accepting, SoFar, reading_as};

use crate::form::{Given, Taken};
use refusal::Refusal;
use text::{Malformed, Reader};

/// A reader, the numbers that it gave, and whether the text may still be accepted.
#[derive(Clone, Copy)]
pub struct Session {
    pub reader: Reader,
    pub taken: Taken,
    /// The refusal of a text that is refused whatever follows.
    pub standing: Result<(), Refusal>,
}

impl Session {
    /// A session before the first byte.
    pub fn new() -> Session
        ensures so_far { SoFar [] result }
        ensures accepting { IsOk result.standing }
    {
        Session {
            reader: Reader::new(),
            taken: Taken::Nothing,
            standing: Ok(()),
        }
    }

    /// Takes one byte more. A text that is refused is refused whatever follows: the session keeps
    /// its refusal, answers it from then on, and takes nothing more.
    pub fn push(&mut self, byte: u8) -> Result<(), Refusal>
        ensures so_far { (text : List ℕ) → SoFar text self.old
            → SoFar (text ++ byte ∷ []) self.new }
        ensures err { (text : List ℕ) → SoFar text self.old
            → IfErr result (IsRefused (text ++ byte ∷ [])) }
        ensures kept { result ≡ self.new.standing }
        ensures stays { OnErr self.old.standing (self.new ≡ self.old) }
    {
        self.standing?;
        self.standing = self.take(byte);
        self.standing
    }

    /// Takes a part of a text, as `push` does byte by byte.
    pub fn feed(&mut self, bytes: &[u8]) -> Result<(), Refusal>
        ensures so_far { (text : List ℕ) → SoFar text self.old
            → SoFar (text ++ bytes.now) self.new }
        ensures err { (text : List ℕ) → SoFar text self.old
            → IfErr result (IsRefused (text ++ bytes.now)) }
        ensures kept { result ≡ self.new.standing }
        ensures stays { OnErr self.old.standing (self.new ≡ self.old) }
    {
        for &byte in bytes {
            self.push(byte)?;
        }
        self.standing
    }

    /// The text ends here. Where a refusal is kept, it is the answer.
    pub fn finish(self) -> Result<Given, Refusal>
        ensures given { (text : List ℕ) → SoFar text self → reading text ≡ reading_as result }
        ensures refused { IfErr self.standing (λ refusal. result ≡ Err refusal) }
    {
        let Session {
            reader,
            mut taken,
            standing,
        } = self;
        standing?;
        match reader.end() {
            Ok(None) => taken.finish(),
            Ok(Some(number)) => {
                taken.take(number)?;
                taken.finish()
            }
            Err(Malformed) => Err(Refusal::Length),
        }
    }

    /// Takes one byte more of a text that may still be accepted.
    fn take(&mut self, byte: u8) -> Result<(), Refusal>
        ensures ok { (text : List ℕ) → Accepting text self.old
            → OnOk result (Accepting (text ++ byte ∷ []) self.new) }
        ensures err { (text : List ℕ) → Accepting text self.old
            → IfErr result (IsRefused (text ++ byte ∷ [])) }
    {
        match self.reader.push(byte) {
            Ok(None) => Ok(()),
            Ok(Some(number)) => self.taken.take(number),
            Err(Malformed) => Err(Refusal::Length),
        }
    }
}

impl Given {
    /// What a text gives.
    pub fn parse(text: &[u8]) -> Result<Given, Refusal>
        ensures { reading text.now ≡ reading_as result }
    {
        let mut session = Session::new();
        session.feed(text)?;
        session.finish()
    }
}
