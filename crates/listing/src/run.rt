//! From a text to its listing.

ghost use Rattle.std.specs.Prelude.{◌≡◌, ℕ, ◌<◌, ◌≤◌, List, length, OnErr, OnOk};
ghost use Rattle.std.specs.Io.KnownBytes.{Appends};
ghost use Rattle.listing.specs.Reading.{reading};
ghost use Rattle.listing.specs.Taken.{reading_as};
ghost use Rattle.listing.specs.Listing.{AppendsPart, Listed, OnWhole, Printed, PrintedPart};
ghost use Rattle.listing.specs.Listing.{Replied, listing_of, page_room};

use crate::form::Given;
use crate::input::read_all;
use crate::page::{PAGE_ROOM, page_of};
use refusal::Refusal;
use std::io;
use std::io::{ErrorKind, Read, Write};

/// Puts the listing of a text into a buffer, and gives where it ends. A buffer with less room than
/// the longest page takes is left as it was, and the answer is 0.
// (C): the buffer is lent; 0 is no end of a listing, since each has a line.
pub fn list(text: &[u8], out: &mut [u8]) -> usize
    ensures listed { page_room ≤ length out.old → Listed text.now out.old out.new result }
    ensures small { length out.old < page_room → (out.new ≡ out.old) × (result ≡ 0) }
{
    if out.len() < PAGE_ROOM {
        return 0;
    }
    respond(&Given::parse(text), out)
}

/// Reads a text to its end, and puts its listing into a buffer: where that ends, and how the last
/// read ended.
pub fn reply<R: Read>(reader: &mut R, out: &mut [u8]) -> (usize, io::Result<()>)
    requires { page_room ≤ length out.old }
    ensures replied { Replied (R.remaining reader.old) (R.remaining reader.new) result.1
        out.old out.new result.0 }
    ensures whole { OnOk result.1 (OnWhole (R.remaining reader.old) (λ all.
        Listed all out.old out.new result.0)) }
{
    let (given, read) = read_all(reader);
    (respond(&given, out), read)
}

/// Reads a text to its end, and writes its listing. Where a read fails, the listing of what was
/// read before is written, and then the error is given. Where a write fails, the start of the
/// listing is written.
pub fn print<R: Read, W: Write>(reader: &mut R, writer: &mut W) -> io::Result<()>
    ensures ok { OnOk result (Printed (R.remaining reader.old) (R.remaining reader.new) result
        (W.contents writer.old) (W.contents writer.new)) }
    ensures whole { OnOk result (OnWhole (R.remaining reader.old) (λ all.
        Appends (W.contents writer.old) (W.contents writer.new) (listing_of all))) }
    ensures err { OnErr result (PrintedPart (R.remaining reader.old) (R.remaining reader.new) result
        (W.contents writer.old) (W.contents writer.new)) }
{
    let (given, read) = read_all(reader);
    let page = page_of(&given);
    write_page(writer, page.as_slice())?;
    read
}

/// Puts what is printed for what a text gives into a buffer, and gives where it ends.
pub fn respond(given: &Result<Given, Refusal>, out: &mut [u8]) -> usize
    requires { page_room ≤ length out.old }
    ensures { (text : List ℕ) → reading text ≡ reading_as given.now
        → Listed text out.old out.new result }
{
    let page = page_of(given);
    let end = page.len();
    out[..end].copy_from_slice(page.as_slice());
    end
}

/// Writes a page, as `write_all` does, and says more: where a write fails, its start is written.
// Counted (P): a proved loop has to end, so the writes are counted up to a number that no run
// reaches.
fn write_page<W: Write>(writer: &mut W, page: &[u8]) -> io::Result<()>
    ensures ok { OnOk result (Appends (W.contents writer.old) (W.contents writer.new) page.now) }
    ensures err { OnErr result
        (AppendsPart (W.contents writer.old) (W.contents writer.new) page.now) }
{
    let mut rest = page;
    for _ in 0..u64::MAX {
        if rest.is_empty() {
            break;
        }
        match writer.write(rest) {
            Ok(0) => {
                let message = "failed to write whole buffer";
                return Err(io::Error::new(ErrorKind::WriteZero, message));
            }
            Ok(count) => rest = &rest[count..],
            Err(error) if error.kind() == ErrorKind::Interrupted => {}
            Err(error) => return Err(error),
        }
    }
    if rest.is_empty() {
        Ok(())
    } else {
        Err(ErrorKind::TimedOut.into())
    }
}
