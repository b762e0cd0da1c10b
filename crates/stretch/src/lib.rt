// A stretch of the second pass: the commands of one production that follow each other, answered one after another. What follows a command is handed on as
// a part of the stream. The production's store is lent; of the other production nothing is known but what it leaves of the stock.
#![tactic(auto)]

ghost use Rattle.std.specs.Prelude.{◌≡◌};
ghost use Rattle.packing.specs.Productions.{is_same};
ghost use Rattle.packing.specs.Shelves.{belonging};
ghost use Rattle.engine.specs.Store.{state};
ghost use Rattle.stretch.specs.Words.{Writable, Written};
ghost use Rattle.stretch.specs.Stretches.{Startable, Stretched, leaving};

use aim::Counters;
use engine::{Store, Terms};
use ledger::{BINS, Row};
use packing::{Answer, Command, Production};
use tournament::looks::Looks;

// What a stretch leaves: the counters of its production, how many commands are answered by then, the largest looks of one of them, and how many bytes
// it has passed.
#[derive(Clone, Copy)]
pub struct Stretch {
    pub counters: Counters,
    pub done: usize,
    pub looks: Looks,
    pub passed: usize,
}

// The end of a stretch.
fn ended(counters: Counters, done: usize, looks: Looks, passed: usize) -> Stretch
    ensures { result ≡ leaving counters done looks passed }
{
    Stretch {
        counters,
        done,
        looks,
        passed,
    }
}

// Whether the commands after this one belong to the same production: all but 05 with the other's byte leave it so.
fn stays(production: Production, command: Command) -> bool
    ensures { result ≡ is_same production (belonging production command) }
{
    match command {
        Command::Switch(next) => next == production,
        _ => true,
    }
}

// Writes the word of an answer in both rows, at the place of its number.
fn write_words(answers: &mut [u16], free: &mut [u32], answer: Answer)
    requires { Writable answer.number answers.old free.old }
    ensures { Written answer answers.old free.old answers.new free.new }
{
    let outcome = answer.outcome;
    let place = answer.number - 1;
    answers[place] = words::word_of(outcome);
    free[place] = words::free_units_of(outcome);
}

// Answers the commands of one production, each in both rows by the word of its answer's number, up to the 05 that goes to the other one or to the end of
// the stream. The store is that production's alone, and the stock is told as what is left of it: the other opens no bin meanwhile.
pub fn answer_stretch(
    commands: &[u8],
    production: Production,
    terms: Terms,
    before: Counters,
    store: &mut Store,
    ledger: &mut [Row; BINS],
    answers: &mut [u16],
    free: &mut [u32],
    answered: usize,
    most: Looks,
) -> Stretch
    requires { Startable terms production commands.now answers.old free.old answered most.count (state store.old ledger.old before) }
    ensures { Stretched terms production commands.now answers.old free.old answered most.count (state store.old ledger.old before) answers.new free.new result.passed result.done result.looks.count (state store.new ledger.new result.counters) }
{
    let mut counters = before;
    let mut rest = commands;
    let mut done = answered;
    let mut looks = most;
    while 0 < rest.len() {
        let front = fronts::accepted_front(rest);
        let command = front.command;
        let used = front.width + 1;
        // Before the answer, so that it need not remember how long the command is.
        rest = &rest[used..];
        let number = done + 1;
        let on = stays(production, command);
        let step = answering::answer(store, ledger, terms, counters, number, command);
        let answer = step.answer;
        write_words(answers, free, answer);
        counters = step.next;
        done = answer.number;
        looks = looks.larger(step.looks);
        if !on {
            return ended(counters, done, looks, commands.len() - rest.len());
        }
    }
    ended(counters, done, looks, commands.len())
}
