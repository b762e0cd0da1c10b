// The turns that the two productions take in the second pass, behind the first stretch of production 0; the counters at the opening and after all commands; and
// what a production is answered by beside the other.
#![tactic(auto)]

ghost use Rattle.std.specs.Prelude.{◌≡◌, ◌≤◌};
ghost use Rattle.engine.specs.Store.{state};
ghost use Rattle.turns.specs.Turns.{Turnable, Turned};
ghost use Rattle.turns.specs.Running.{terms_beside};

use aim::Counters;
use engine::{Store, Terms};
use ledger::{BINS, Row};
use packing::Opening;
use packing::Production::{First, Second};
use stretch::Stretch;
use tournament::Shape;
use tournament::looks::Looks;

// The counters of both productions after all commands, and the largest looks of one.
#[derive(Clone, Copy)]
pub struct Totals {
    pub first: Counters,
    pub second: Counters,
    pub looks: Looks,
}

// The counters at the opening: no bin is opened, and the first B2 goes to tree 3.
pub const NONE_YET: Counters = Counters {
    opened: 0,
    phase: 0,
    items: 0,
    b2: 3,
};

// What the commands of a production are answered by while the other has these counters: what that has opened is not left of the stock.
pub fn terms_beside(opening: Opening, shape: Shape, other: Counters) -> Terms
    requires { other.opened ≤ opening.stock }
    ensures { result ≡ terms_beside opening shape other.opened }
{
    let left = opening.stock as u32 - other.opened;
    Terms {
        opening,
        shape,
        left,
    }
}

// Answers what follows the first stretch of production 0, which left this and whose store is lent: stretches of production 1 and of production 0 take
// turns. The store of production 1 is laid out here, since a stream that never goes there does without it; the ledgers of both are lent.
pub fn answer_turns(
    commands: &[u8],
    opening: Opening,
    shape: Shape,
    before: Stretch,
    store: &mut Store,
    ledger: &mut [Row; BINS],
    other: &mut [Row; BINS],
    answers: &mut [u16],
    free: &mut [u32],
) -> Totals
    requires { Turnable opening shape commands.now answers.old free.old before.done before.looks.count (state store.old ledger.old before.counters) other.old }
    ensures { Turned opening shape commands.now answers.old free.old before.done before.looks.count (state store.old ledger.old before.counters) other.old answers.new free.new result.first ledger.new result.second other.new result.looks.count }
{
    let mut store1 = Store::blank();
    let mut second = NONE_YET;
    let mut turn = before;
    let mut later = commands;
    while 0 < later.len() {
        let first = turn.counters;
        let terms = terms_beside(opening, shape, first);
        let own = &mut store1;
        let one = stretch::answer_stretch(
            later, Second, terms, second, own, other, answers, free, turn.done, turn.looks,
        );
        second = one.counters;
        later = &later[one.passed..];
        let terms = terms_beside(opening, shape, second);
        turn = stretch::answer_stretch(
            later, First, terms, first, store, ledger, answers, free, one.done, one.looks,
        );
        later = &later[turn.passed..];
    }
    Totals {
        first: turn.counters,
        second,
        looks: turn.looks,
    }
}
