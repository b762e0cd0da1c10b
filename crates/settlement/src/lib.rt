// "Sizes known within a range": command 07 tells the size of an item that an 06 shelved. The note of that command's number tells where the item lies and what
// it can measure, so there is no search and no walk: one row of the ledger is written, one note, and the row is shown in the trees. It takes no look.
#![tactic(auto)]

ghost use Rattle.std.specs.Prelude.{◌≡◌};
ghost use Rattle.packing.specs.declared.Command.TheVariants.{Settle};
ghost use Rattle.packing.specs.Bins.{stored};
ghost use Rattle.engine.specs.Store.{state, Sound};
ghost use Rattle.engine.specs.Done.{Done};
ghost use Rattle.settlement.specs.Waiting.{in_words, Waits, Fits};

use aim::Counters;
use engine::{Answered, Store, Terms};
use ledger::{BINS, NUMBERS, Note, Row};
use packing::{ItemReason, Opening, Outcome};
use tournament::looks::Looks;

// Settles the item of a number that waits for a size within its range, and answers its bin, with the units that are then free there. The size that it was
// shelved by stays noted: it tells the class.
fn settle_down(
    store: &mut Store,
    ledger: &mut [Row; BINS],
    terms: Terms,
    counters: Counters,
    number: usize,
    named: u32,
    size: u32,
) -> Answered
    requires { Fits terms.opening terms.shape named size (state store.old ledger.old counters) }
    ensures { Done terms.opening terms.left terms.shape (state store.old ledger.old counters) number (Settle named size) result.answer result.looks.count (state store.new ledger.new result.next) }
{
    let row_named = named as usize;
    let note = store.notes[row_named];
    let stored = size + terms.opening.trailer as u32;
    let freed = note.size - stored;
    let lies = note.bin;
    let bin = lies as u16;
    let place = bin as usize - 1;
    let row = ledger::settle(ledger, place, freed);
    store.notes[row_named] = Note {
        size: stored,
        least: 0,
        ..note
    };
    let free = row.free;
    let outcome = Outcome::Settled { bin, free };
    // Last, as where an item is placed.
    index::show_freed(&mut store.trees, terms.shape, place, row);
    engine::give(number, outcome, counters, Looks::NONE)
}

// Whether the stored size, which may be more than 32 bits hold, is within the range that a note has.
fn is_within(note: Note, opening: Opening, size: u32) -> bool
    ensures { result ≡ in_words note (stored opening size) }
{
    let stored = size as u64 + opening.trailer as u64;
    let least = note.least as u64;
    let greatest = note.greatest as u64;
    if stored < least {
        return false;
    }
    stored <= greatest
}

// The item of a number that waits for its size: 21 where the size is outside its range.
fn settle_waiting(
    store: &mut Store,
    ledger: &mut [Row; BINS],
    terms: Terms,
    counters: Counters,
    number: usize,
    named: u32,
    size: u32,
) -> Answered
    requires { Waits terms.opening terms.shape named (state store.old ledger.old counters) }
    ensures { Done terms.opening terms.left terms.shape (state store.old ledger.old counters) number (Settle named size) result.answer result.looks.count (state store.new ledger.new result.next) }
{
    let row_named = named as usize;
    let note = store.notes[row_named];
    if is_within(note, terms.opening, size) {
        return settle_down(store, ledger, terms, counters, number, named, size);
    }
    engine::refuse(number, ItemReason::OutsideRange, counters, Looks::NONE)
}

// Answers command 07: 20 where no item of that number waits for its size. A number past the notes is no command's; the note of any other that has none on
// the shelf, its own and later ones included, has no bin, and that of an item of 02 or of one that is settled has no least.
pub fn settle(
    store: &mut Store,
    ledger: &mut [Row; BINS],
    terms: Terms,
    counters: Counters,
    number: usize,
    named: u32,
    size: u32,
) -> Answered
    requires { Sound terms.opening terms.shape (state store.old ledger.old counters) }
    ensures { Done terms.opening terms.left terms.shape (state store.old ledger.old counters) number (Settle named size) result.answer result.looks.count (state store.new ledger.new result.next) }
{
    let place = named as usize;
    if NUMBERS <= place {
        return engine::refuse(number, ItemReason::NotReserved, counters, Looks::NONE);
    }
    let note = store.notes[place];
    if note.bin == 0 {
        return engine::refuse(number, ItemReason::NotReserved, counters, Looks::NONE);
    }
    if note.least == 0 {
        return engine::refuse(number, ItemReason::NotReserved, counters, Looks::NONE);
    }
    settle_waiting(store, ledger, terms, counters, number, named, size)
}
