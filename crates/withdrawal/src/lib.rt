// "Withdrawn masters": command 04 takes out the item that the command of another number shelved. The note of that number tells where it lies, so there is
// no search and no walk: one row of the ledger is written, one note, and the row is shown in the trees. It takes no look.
#![tactic(auto)]

ghost use Rattle.packing.specs.declared.Command.TheVariants.{Withdraw};
ghost use Rattle.engine.specs.Store.{state, Sound};
ghost use Rattle.engine.specs.Done.{Done};
ghost use Rattle.withdrawal.specs.Lying.{Lies};

use aim::Counters;
use engine::{Answered, Store, Terms};
use ledger::{BINS, NUMBERS, Row, UNNOTED};
use packing::{ItemReason, Outcome};
use tournament::looks::Looks;

// Takes out the item of a number that has one on the shelf, and answers the bin that it left, with the units that are then free there: those of the size
// that counts then. Whether it is an A goes by the size that it was shelved by.
fn take_out(
    store: &mut Store,
    ledger: &mut [Row; BINS],
    terms: Terms,
    counters: Counters,
    number: usize,
    named: u32,
) -> Answered
    requires { Lies terms.opening terms.shape named (state store.old ledger.old counters) }
    ensures { Done terms.opening terms.left terms.shape (state store.old ledger.old counters) number (Withdraw named) result.answer result.looks.count (state store.new ledger.new result.next) }
{
    let row_named = named as usize;
    let note = store.notes[row_named];
    let size = note.size;
    let bin = note.bin as u16;
    let place = bin as usize - 1;
    let greatest = note.greatest;
    let a = aim::a_of(greatest, terms.opening.capacity);
    let next = aim::withdraw(counters);
    let row = ledger::leave(ledger, place, size, a);
    store.notes[row_named] = UNNOTED;
    let free = row.free;
    let outcome = Outcome::Withdrawn { bin, free };
    // Last, as where an item is placed.
    index::show_freed(&mut store.trees, terms.shape, place, row);
    engine::give(number, outcome, next, Looks::NONE)
}

// Answers command 04: 17 where no item of that number is on the shelf. A number past the notes is no command's; the note of any other that has none, its
// own and later ones included, has no bin.
pub fn withdraw(
    store: &mut Store,
    ledger: &mut [Row; BINS],
    terms: Terms,
    counters: Counters,
    number: usize,
    named: u32,
) -> Answered
    requires { Sound terms.opening terms.shape (state store.old ledger.old counters) }
    ensures { Done terms.opening terms.left terms.shape (state store.old ledger.old counters) number (Withdraw named) result.answer result.looks.count (state store.new ledger.new result.next) }
{
    let place = named as usize;
    if NUMBERS <= place {
        return engine::refuse(number, ItemReason::NotShelved, counters, Looks::NONE);
    }
    let note = store.notes[place];
    if note.bin == 0 {
        return engine::refuse(number, ItemReason::NotShelved, counters, Looks::NONE);
    }
    take_out(store, ledger, terms, counters, number, named)
}
