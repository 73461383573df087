//! Reads a list of comparison cases from standard input, runs each case that is served, and prints
//! for each call how many answers agree with the list, entry by entry, and how many differ.
#![tactic(auto)]

use cases::{Reading, is_blank, push_byte};
use counts::Counts;
use failure::Failure;
use std::alloc::Global;
use std::io;
use std::io::{BufRead, BufReader, ErrorKind};
use trials::{Case, Outcome};

mod counts;
mod failure;

/// Runs the records of a list, and counts what came of each.
fn run(alloc: Global, reader: impl BufRead + Drop, counts: &mut Counts) -> Result<(), Failure> {
    // A line feed after the text ends its last word.
    let mut reader = reader.chain(&b"\n"[..]);
    let mut reading = Reading::Between;
    let mut case = Case::new(alloc);
    let mut word = Vec::new(alloc);
    // A proved loop has to end: no text has so many pieces.
    for _ in 0..u64::MAX {
        let bytes = match reader.fill_buf() {
            Err(error) if error.kind() == ErrorKind::Interrupted => continue,
            filled => filled?,
        };
        if bytes.is_empty() {
            break;
        }
        for byte in bytes {
            if !is_blank(byte) {
                push_byte(&mut word, *byte)?;
                continue;
            }
            if let Some(record) = reading.take(alloc, &word)? {
                counts.add(record.first().copied(), case.run(&record)?);
            }
            word.clear();
        }
        let len = bytes.len();
        reader.consume(len);
    }
    reading.finish()?;
    Ok(())
}

fn main(rt: HostRuntime) -> io::Result<()> {
    let alloc = rt.alloc();
    let mut counts = Counts::new();
    match run(alloc, BufReader::new(alloc, rt.stdin())?, &mut counts) {
        Ok(()) => {}
        Err(Failure::Io(error)) => return Err(error),
        Err(Failure::List(error)) => {
            println!(rt; "{error}")?;
            counts.add(None, Outcome::Differed);
        }
    }
    counts.report(&rt)
}
