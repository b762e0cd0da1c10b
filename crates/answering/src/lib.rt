// One command after the opening, over the store of its production: which function answers it.
#![tactic(auto)]

ghost use Rattle.engine.specs.Store.{state, Ready};
ghost use Rattle.engine.specs.Done.{Done};

use aim::Counters;
use engine::{Answered, Store, Terms};
use ledger::{BINS, Row};
use packing::{Command, Outcome};
use tournament::looks::Looks;

// Answers a command after the opening, each by what it asks for. How many bins are opened is told by a walk over the ledger, of which the answer has the
// figure and not the places read.
pub fn answer(
    store: &mut Store,
    ledger: &mut [Row; BINS],
    terms: Terms,
    counters: Counters,
    number: usize,
    command: Command,
) -> Answered
    requires { Ready terms.opening terms.left terms.shape number (state store.old ledger.old counters) }
    ensures { Done terms.opening terms.left terms.shape (state store.old ledger.old counters) number command result.answer result.looks.count (state store.new ledger.new result.next) }
{
    match command {
        Command::Count => {
            let tally = ledger::count(ledger, terms.opening.stock);
            let figure = tally.figure;
            engine::give(number, Outcome::Counted(figure), counters, Looks::NONE)
        }
        Command::Withdraw(named) => {
            withdrawal::withdraw(store, ledger, terms, counters, number, named)
        }
        Command::Switch(production) => {
            engine::give(number, Outcome::Switched(production), counters, Looks::NONE)
        }
        Command::Settle { named, size } => {
            settlement::settle(store, ledger, terms, counters, number, named, size)
        }
        // 02 and 06.
        _ => engine::place(store, ledger, terms, counters, number, command),
    }
}
