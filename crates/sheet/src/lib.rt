// The text that the program `vault_sheet` prints of a stream, in a row of bytes that the caller lends.
#![tactic(auto)]

ghost use Rattle.std.specs.Prelude.{◌≡◌, ◌++◌, length, drop};
ghost use Rattle.text.specs.Writing.{Room, Appended};
ghost use Rattle.sheet.specs.Sheet.{sheet};
ghost use Rattle.sheet.specs.Writing.{most_of_a_sheet, Sheetable, Sheeted};

use ledger::{BINS, BLANK, Row};
use limits::MOST_COMMANDS;
use packing::Opening;
use pages::{LINE, PAGE};
use report::refused::MOST_BYTES;
use text::Text;

// The pages of all bins, and one more: each production starts a page of its own, so two pages can be short. (A constant calls no `div_ceil`.)
const PAGES: usize = (BINS + PAGE - 1) / PAGE + 1;

// Enough for every sheet: the lines of all bins and of their pages.
pub const N: usize = LINE * (BINS + PAGES);

// The lines of production 0, and behind them those of production 1, whose pages count on. Each ledger tells how many bins its production has opened.
fn put_both(text: &mut Text<'_>, first: &[Row; BINS], second: &[Row; BINS], opening: Opening)
    requires { Sheetable opening first.now second.now text.old }
    ensures { Sheeted opening first.now second.now text.old text.new }
{
    let capacity = opening.capacity;
    let stock = opening.stock;
    let tally0 = ledger::count(first, stock);
    let bins0 = tally0.figure as usize;
    pages::put_lines(text, first, capacity, bins0, 0);
    let before = pages::pages_of(bins0);
    let tally1 = ledger::count(second, stock);
    let bins1 = tally1.figure as usize;
    pages::put_lines(text, second, capacity, bins1, before);
}

// What is printed of a stream.
fn put_sheet(text: &mut Text<'_>, stream: &[u8])
    requires { Room text.old most_of_a_sheet }
    ensures { Appended text.old (sheet stream.now) text.new }
{
    if MOST_BYTES < stream.len() {
        return report::refused::put_overlong(text);
    }
    let mut words = [0u16; MOST_COMMANDS];
    let mut free = [0u32; MOST_COMMANDS];
    let mut first = [BLANK; BINS];
    let mut second = [BLANK; BINS];
    match stream::record(stream, &mut words, &mut free, &mut first, &mut second) {
        Err(refused) => report::refused::put_refusal(text, refused),
        Ok(_) => {
            let opening = reader::opening_of(stream);
            put_both(text, &first, &second, opening)
        }
    }
}

// Puts what is printed of a stream at the front of the row, and answers its length; the bytes behind it are untouched.
pub fn print(stream: &[u8], out: &mut [u8; N]) -> usize
    ensures result { result ≡ length (sheet stream.now) }
    ensures bytes { out.new ≡ sheet stream.now ++ drop (length (sheet stream.now)) out.old }
{
    let mut text = Text::new(out);
    put_sheet(&mut text, stream);
    text.len()
}
