// The words of an answer in both rows, and the answer that they stand for.
#![tactic(auto)]

ghost use Rattle.std.specs.Prelude.{◌≡◌, ◌-◌, if◌then◌else◌};
ghost use Rattle.packing.specs.declared.Outcome.TheVariants.{Refused};
ghost use Rattle.packing.specs.Prelude.{◌<?◌};
ghost use Rattle.packing.specs.Refusals.{word, free_units, item_reason, outcome_of};

use packing::{Command, Outcome};

// The 16-bit word of an answer.
pub fn word_of(outcome: Outcome) -> u16
    ensures { result ≡ word outcome }
{
    match outcome {
        Outcome::Placed { bin, .. }
        | Outcome::Withdrawn { bin, .. }
        | Outcome::Settled { bin, .. } => bin,
        Outcome::Counted(opened) => opened,
        Outcome::Switched(production) => u16::from(production),
        Outcome::Refused(reason) => 32768 + u16::from(reason),
    }
}

// The 32-bit word beside it: the units that are free on the bin it names, and 0 where it names none.
pub fn free_units_of(outcome: Outcome) -> u32
    ensures { result ≡ free_units outcome }
{
    match outcome {
        Outcome::Placed { free, .. }
        | Outcome::Withdrawn { free, .. }
        | Outcome::Settled { free, .. } => free,
        Outcome::Counted(_) | Outcome::Switched(_) | Outcome::Refused(_) => 0,
    }
}

// What an answer word stands for whose command names a bin: this outcome, unless the word is a refusal's.
fn unless_refused(word: u16, named: Outcome) -> Outcome
    ensures { result ≡ (if word <? 32_768 then named else Refused (item_reason (word - 32_768))) }
{
    if word < 32768 {
        named
    } else {
        Outcome::Refused(packing::item_reason(word - 32768))
    }
}

// The outcome that an answer word and the free units beside it stand for: the command tells a bin's number from a count or a
// production, and whether an item went there, left or was settled there.
pub fn outcome_of(command: Command, word: u16, free: u32) -> Outcome
    ensures { result ≡ outcome_of command word free }
{
    match command {
        Command::Shelve(_) | Command::Reserve { .. } => unless_refused(
            word,
            Outcome::Placed { bin: word, free },
        ),
        Command::Withdraw(_) => unless_refused(word, Outcome::Withdrawn { bin: word, free }),
        Command::Settle { .. } => unless_refused(word, Outcome::Settled { bin: word, free }),
        Command::Count => Outcome::Counted(word),
        Command::Switch(_) => Outcome::Switched(packing::production_of(word as u32)),
    }
}
