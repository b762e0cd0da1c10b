// The program `shelve`: it reads a stream from standard input, and prints what the crate report makes of it. No contract can speak of input and
// output, so all the work is in `report::print`.
#![tactic(auto)]

use report::refused::MOST_BYTES;
use std::io;

// It reads until the input ends, or there is one byte more than the longest stream, and writes every byte of the text. A read or a write that fails ends
// it, with the status 1.
// (`vault_sheet` is this over another `print`: one function of both would bound it by the length of its row, for which no proof is generated.)
fn main(rt: HostRuntime) -> io::Result<()> {
    let mut row = [0u8; MOST_BYTES + 1];
    let stream = input::read_full(&mut rt.stdin(), &mut row)?;
    let mut out = [0u8; report::N];
    let printed = report::print(stream, &mut out);
    rt.write_all(&out[..printed])
}
