// The second pass: the commands of an accepted stream, in stretches of one production and of the other. Each production has a store of its own. The
// ledgers that the caller lends record the packings after all commands when the pass is over.
#![tactic(auto)]

ghost use Rattle.turns.specs.Running.{Runnable, Ran};

use engine::Store;
use ledger::{BINS, Row};
use packing::{Opening, Production};
use tournament::Shape;
use tournament::looks::Looks;
use turns::{NONE_YET, Totals};

// Answers every command of a stream that no refusal stops, and records the packing of each production in its ledger.
pub fn answer_all(
    stream: &[u8],
    opening: Opening,
    shape: Shape,
    first: &mut [Row; BINS],
    second: &mut [Row; BINS],
    answers: &mut [u16],
    free: &mut [u32],
) -> Totals
    requires { Runnable stream.now answers.old free.old opening shape first.old second.old }
    ensures { Ran stream.now answers.old free.old opening answers.new free.new result.first first.new result.second second.new result.looks.count }
{
    let terms = turns::terms_beside(opening, shape, NONE_YET);
    let mut store = Store::blank();
    let commands = reader::behind_opening(stream);
    let turn = stretch::answer_stretch(
        commands,
        Production::First,
        terms,
        NONE_YET,
        &mut store,
        first,
        answers,
        free,
        0,
        Looks::NONE,
    );
    let rest = &commands[turn.passed..];
    if rest.is_empty() {
        return Totals {
            first: turn.counters,
            second: NONE_YET,
            looks: turn.looks,
        };
    }
    turns::answer_turns(
        rest, opening, shape, turn, &mut store, first, second, answers, free,
    )
}
