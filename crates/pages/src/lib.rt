// The pages of the vault sheet: the lines of one production's cartridges. A field that stands behind a space is written as a field one wider.
#![tactic(auto)]

ghost use Rattle.std.specs.Prelude.{◌≡◌, ◌≤◌, ◌<◌};
ghost use Rattle.ledger.specs.Rows.{places};
ghost use Rattle.text.specs.Writing.{Room, Appended};
ghost use Rattle.pages.specs.Pages.{page, bin, line_text};
ghost use Rattle.pages.specs.Claims.{pages_of};
ghost use Rattle.pages.specs.Writing.{told, Legible, line_length, entry_text, ledger_text, Enterable, Legibles};

use ledger::{BINS, Row};
use text::Text;

// A page has so many cartridge lines.
pub const PAGE: usize = 50;

// A line has so many bytes, with its newline.
pub const LINE: usize = 41;

// So many bins have so many pages, of which the last may be short.
pub fn pages_of(bins: usize) -> usize
    requires { bins ≤ places }
    ensures { result ≡ pages_of bins }
{
    bins.div_ceil(PAGE)
}

// The line that opens a page.
fn put_page(text: &mut Text<'_>, number: usize)
    requires few { number < 1000 }
    requires room { Room text.old line_length }
    ensures { Appended text.old (line_text (page number)) text.new }
{
    text.put_bytes(b"PAGE");
    fields::put_right(text, 4, number);
    fields::put_end(text, 32);
}

// The line of a cartridge, by its row of the ledger.
fn put_bin(text: &mut Text<'_>, capacity: u32, number: usize, row: Row)
    requires legible { Legible capacity number row }
    requires room { Room text.old line_length }
    ensures { Appended text.old (line_text (bin (told capacity number row))) text.new }
{
    let class = row.class as usize;
    let free = row.free;
    let load = (capacity - free) as usize;
    let free = free as usize;
    let held = row.held as usize;
    fields::put_right(text, 4, number);
    fields::put_right(text, 2, class);
    fields::put_right(text, 9, load);
    fields::put_right(text, 9, free);
    fields::put_right(text, 5, held);
    fields::put_end(text, 11);
}

// The line of a cartridge, behind that of the page which it opens, if it does. The pages count on after so many.
fn put_entry(text: &mut Text<'_>, capacity: u32, pages: usize, number: usize, row: Row)
    requires { Enterable text.old capacity pages number row }
    ensures { Appended text.old (entry_text pages (told capacity number row)) text.new }
{
    if number % PAGE == 1 {
        let page = pages + number / PAGE + 1;
        put_page(text, page);
    }
    put_bin(text, capacity, number, row);
}

// The lines of all opened bins of one production: bin i + 1 has the ledger's row at place i. They start a new page, whose number counts on after the
// pages that were begun before.
pub fn put_lines(
    text: &mut Text<'_>,
    ledger: &[Row; BINS],
    capacity: u32,
    opened: usize,
    pages: usize,
)
    requires { Legibles ledger.now capacity opened pages text.old }
    ensures { Appended text.old (ledger_text ledger.now capacity opened pages) text.new }
{
    for (place, row) in ledger[..opened].iter().enumerate() {
        put_entry(text, capacity, pages, place + 1, *row);
    }
}
