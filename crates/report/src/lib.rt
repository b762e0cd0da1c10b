// The text that the program `shelve` prints of a stream, in a row of bytes that the caller lends.
#![tactic(auto)]

pub mod refused;

ghost use Rattle.std.specs.Prelude.{◌≡◌, ◌++◌, length, drop};
ghost use Rattle.text.specs.Writing.{Room, Appended};
ghost use Rattle.report.specs.Lines.{printed, most_of_a_text};

use crate::refused::MOST_BYTES;
use limits::MOST_COMMANDS;
use text::Text;

// No line of an answer or of the totals has more bytes.
const LINE: usize = 20;

// Enough for every text: the lines of all answers, and the totals.
pub const N: usize = LINE * MOST_COMMANDS + LINE;

// What is printed of a stream.
fn put_printed(text: &mut Text<'_>, stream: &[u8])
    requires { Room text.old most_of_a_text }
    ensures { Appended text.old (printed stream.now) text.new }
{
    if MOST_BYTES < stream.len() {
        return refused::put_overlong(text);
    }
    let mut words = [0u16; MOST_COMMANDS];
    let mut free = [0u32; MOST_COMMANDS];
    match stream::shelve(stream, &mut words, &mut free) {
        Err(refused) => refused::put_refusal(text, refused),
        Ok(totals) => {
            answer_lines::put_answers(text, stream, &words, &free);
            text.put_line(b'T', &[totals.items, totals.opened, totals.looks]);
        }
    }
}

// Puts what is printed of a stream at the front of the row, and answers its length; the bytes behind it are untouched.
pub fn print(stream: &[u8], out: &mut [u8; N]) -> usize
    ensures result { result ≡ length (printed stream.now) }
    ensures bytes { out.new ≡ printed stream.now ++ drop (length (printed stream.now)) out.old }
{
    let mut text = Text::new(out);
    put_printed(&mut text, stream);
    text.len()
}
