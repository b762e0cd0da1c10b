// The input of a program, into a row of bytes that it has.
#![tactic(auto)]

ghost use Rattle.std.specs.Prelude.{◌≤◌, length, IfOk};

use std::io::{self, Read};

// Reads until the row is full or the input ends, and gives the bytes that it read. Each read but the last gives a byte at least, so there are no more
// reads than the row has bytes.
pub fn read_full<'a, R: Read>(input: &mut R, row: &'a mut [u8]) -> io::Result<&'a [u8]>
    ensures { IfOk result (λ bytes. length bytes.now ≤ length row.old) }
{
    let mut read: usize = 0;
    for _ in 0..row.len() {
        let n = input.read(&mut row[read..])?;
        if n == 0 {
            break;
        }
        read += n;
    }
    Ok(&row[..read])
}
