// The program `count_walk`: it reads a stream from standard input, and prints what a count after all its commands hands back, the figure and the places
// read, in production 0 and on a second line in production 1. Command 03 asks for the figure alone; here the trials see both. Of a stream that is
// refused, or longer than `shelve` takes, it prints nothing.
#![tactic(auto)]

ghost use Rattle.std.specs.Prelude.{◌≡◌};
ghost use Rattle.packing.specs.Limits.{most_commands};
ghost use Rattle.packing.specs.Streams.{verdict};
ghost use Rattle.count_walk.specs.After.{after};

use ledger::{BINS, BLANK};
use limits::MOST_COMMANDS;
use packing::Tally;
use report::refused::MOST_BYTES;
use std::io;

// A count in each production.
#[derive(Clone, Copy)]
struct Tallies {
    first: Tally,
    second: Tally,
}

// What the counts after an accepted stream hand back.
fn tally_after(stream: &[u8]) -> Option<Tallies>
    ensures { result ≡ after (verdict stream.now most_commands) }
{
    let mut answers = [0u16; MOST_COMMANDS];
    let mut free = [0u32; MOST_COMMANDS];
    let mut ledger0 = [BLANK; BINS];
    let mut ledger1 = [BLANK; BINS];
    match stream::record(stream, &mut answers, &mut free, &mut ledger0, &mut ledger1) {
        Err(_) => None,
        Ok(_) => {
            let opening = reader::opening_of(stream);
            let stock = opening.stock;
            let first = ledger::count(&ledger0, stock);
            let second = ledger::count(&ledger1, stock);
            Some(Tallies { first, second })
        }
    }
}

// Prints the two figures of a count.
fn show(rt: &impl Print, tally: Tally) -> io::Result<()> {
    println!(rt; "{} {}", tally.figure, tally.read)
}

// It reads as `shelve` does.
fn main(rt: HostRuntime) -> io::Result<()> {
    let mut row = [0u8; MOST_BYTES + 1];
    let stream = input::read_full(&mut rt.stdin(), &mut row)?;
    if MOST_BYTES < stream.len() {
        return Ok(());
    }
    if let Some(tallies) = tally_after(stream) {
        show(&rt, tallies.first)?;
        show(&rt, tallies.second)?;
    }
    Ok(())
}
