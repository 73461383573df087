//! The census listing: reads a board from standard input, and writes its listing, or the number of
//! its refusal, to standard output.
#![tactic(auto)]

use std::io;

fn main(rt: HostRuntime) -> io::Result<()> {
    listing::run::print(&mut rt.stdin(), &mut rt.stdout())
}
