// The ledger: what is known of each bin, in plain rows and without a tree. Bin i + 1 has the row at place i; a place whose bin is not opened has a blank
// row. Beside it the notes: what is known of the item of each command, at the command's number. Both are lent by the caller, whole.
#![tactic(auto)]

ghost use Rattle.ledger.specs.Entering.{Enterable, Entered};
ghost use Rattle.ledger.specs.Leaving.{Leavable, HasLeft};
ghost use Rattle.ledger.specs.Settling.{Settleable, HasSettled};
ghost use Rattle.ledger.specs.Counting.{Countable, Tallied};

use packing::Tally;

// A place for each bin that a stock can have.
pub const BINS: usize = 512;

// A row: the bin's class, 0 where it is not opened; its free space; the items that it holds; and how many of these are A.
// (0 and no Option: a ledger is laid out as zeros, and the count reads one word a place.)
#[derive(Clone, Copy)]
pub struct Row {
    pub class: u32,
    pub free: u32,
    pub held: u32,
    pub held_a: u32,
}

// The row of a bin that is not opened.
pub const BLANK: Row = Row {
    class: 0,
    free: 0,
    held: 0,
    held_a: 0,
};

// A note for each number that a command can have, and for 0, which none has.
pub const NUMBERS: usize = 4097;

// A note: the bin that holds the command's item, 0 where it has none on the shelf; the item's stored size, which counts; the least stored size that it can
// have while it is unsettled, else 0; and the stored size that it was shelved by, which its class goes by.
// (0 and no Option: notes are laid out as zeros, 0 is the number of no bin and the size of no item, and every command asks.)
#[derive(Clone, Copy)]
pub struct Note {
    pub bin: u32,
    pub size: u32,
    pub least: u32,
    pub greatest: u32,
}

// The note of a command that has no item on the shelf.
pub const UNNOTED: Note = Note {
    bin: 0,
    size: 0,
    least: 0,
    greatest: 0,
};

// Enters an item in the bin at a place, which is opened for it where it was not: the bin's class, the space that is then free, one item more, and so
// many A more, 1 or 0. It answers the row that now stands there.
pub fn enter(ledger: &mut [Row; BINS], place: usize, class: u32, free: u32, a: u32) -> Row
    requires { Enterable ledger.old place a }
    ensures { Entered ledger.old place class free a result ledger.new }
{
    let before = ledger[place];
    let held = before.held + 1;
    let held_a = before.held_a + a;
    let row = Row {
        class,
        free,
        held,
        held_a,
    };
    ledger[place] = row;
    row
}

// Takes an item of this size out of the bin at a place, which stays opened: its space is free again, one item less, and so many A less, 1 or 0. It
// answers the row that now stands there.
pub fn leave(ledger: &mut [Row; BINS], place: usize, size: u32, a: u32) -> Row
    requires { Leavable ledger.old place size a }
    ensures { HasLeft ledger.old place size a result ledger.new }
{
    let before = ledger[place];
    let free = before.free + size;
    let held = before.held - 1;
    let held_a = before.held_a - a;
    let row = Row {
        free,
        held,
        held_a,
        ..before
    };
    ledger[place] = row;
    row
}

// Settles an item of the bin at a place: so many units more are free, and the bin holds the items and the A's that it held. It answers the row that now
// stands there.
pub fn settle(ledger: &mut [Row; BINS], place: usize, freed: u32) -> Row
    requires { Settleable ledger.old place freed }
    ensures { HasSettled ledger.old place freed result ledger.new }
{
    let before = ledger[place];
    let free = before.free + freed;
    let row = Row { free, ..before };
    ledger[place] = row;
    row
}

// How many bins of a stock are opened: a walk over their classes, from the first place to the first that is not opened, since opened ones have no gaps
// among them. It hands back the places that it read too. (A `loop` that yields the count by `break` is the form that document 01 names.)
pub fn count(ledger: &[Row; BINS], stock: u16) -> Tally
    requires { Countable ledger.now stock }
    ensures { Tallied ledger.now stock result }
{
    let mut place: u16 = 0;
    let mut read: u16 = 0;
    let figure = loop {
        if place == stock {
            break stock;
        }
        let row = ledger[place as usize];
        read += 1;
        if row.class == 0 {
            break place;
        }
        place += 1;
    };
    Tally { figure, read }
}
