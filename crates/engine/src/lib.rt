// The engine: the placing step. It finds a bin by the trees, enters the item in the ledger, notes where it lies, and shows the bin's row of the ledger
// in the trees, which are an index over it. Store and ledger are lent by the caller; what is small goes by value. Of productions the step knows
// nothing: the caller tells it what is left of the stock for this one.
#![tactic(auto)]

ghost use Rattle.std.specs.Prelude.{◌≡◌, true, ◌-◌, ◌≤◌, ◌<◌};
ghost use Rattle.packing.specs.declared.Outcome.TheVariants.{Refused};
ghost use Rattle.packing.specs.Sending.{shelves_item};
ghost use Rattle.index.specs.Trees.{Forest};
ghost use Rattle.engine.specs.Store.{state, blank_store, Ready, Placeable};
ghost use Rattle.engine.specs.Spots.{Offers};
ghost use Rattle.engine.specs.Done.{giving, Done};

use aim::Counters;
use ledger::{BINS, NUMBERS, Note, Row, UNNOTED};
use packing::{Answer, Command, ItemReason, Opening, Outcome};
use tournament::looks::Looks;
use tournament::{ROW_WORDS, STRIDE, Shape};

// What the commands of a production are answered by: the opening, the shape of the trees, and what is left of the stock for the production.
#[derive(Clone, Copy)]
pub struct Terms {
    pub opening: Opening,
    pub shape: Shape,
    pub left: u32,
}

// What the engine keeps for itself of a production's items between two commands: the trees, which are an index over the ledger, and the notes. (The ledger is
// no field: it is the caller's, who reads it after the last command. The counters go by value: aim::Counters. Nothing copies a store.)
#[derive(Drop)]
pub struct Store {
    pub trees: [u32; ROW_WORDS],
    pub notes: [Note; NUMBERS],
}

impl Store {
    // The store before the first command.
    pub fn blank() -> Self
        ensures { result ≡ blank_store }
    {
        Self {
            trees: [0; ROW_WORDS],
            notes: [UNNOTED; NUMBERS],
        }
    }
}

// What a command comes to, the counters after it, and the looks that it took.
#[derive(Clone, Copy)]
pub struct Answered {
    pub answer: Answer,
    pub next: Counters,
    pub looks: Looks,
}

// Where an item goes: the place of its bin, the space left free there, and the bins opened then.
#[derive(Clone, Copy)]
struct Spot {
    place: usize,
    free: u32,
    opened: u32,
}

// What the search has for an item: a spot, or none, as what is left of the stock for its production is all opened. And the looks of the search.
#[derive(Clone, Copy)]
struct Offered {
    spot: Option<Spot>,
    looks: Looks,
}

// Where an item goes that is searched for in this tree: the lowest place with space for it, else a new bin.
fn find_spot(trees: &[u32; ROW_WORDS], terms: Terms, opened: u32, tree: usize, size: u32) -> Offered
    requires forest { Forest terms.shape trees.now }
    requires tree { tree < 5 }
    requires some { 1 ≤ size }
    requires fits { size ≤ terms.opening.capacity }
    ensures { Offers terms trees.now opened tree size result }
{
    let shape = terms.shape;
    let base = STRIDE * tree;
    let searched = tournament::search(trees, base, shape, size);
    let spot = match searched.found {
        Some(place) => {
            let space = tournament::value(trees, base, shape, place);
            let free = space - size;
            Some(Spot {
                place,
                free,
                opened,
            })
        }
        None if terms.left <= opened => None,
        None => Some(Spot {
            place: opened as usize,
            free: terms.opening.capacity - size,
            opened: opened + 1,
        }),
    };
    Offered {
        spot,
        looks: searched.looks,
    }
}

// "An answer joins the command's number with placed, counted or refused"; beside it the counters after the command, and the looks that it took.
pub fn give(number: usize, outcome: Outcome, next: Counters, looks: Looks) -> Answered
    ensures { result ≡ giving number outcome next looks }
{
    let answer = Answer { number, outcome };
    Answered {
        answer,
        next,
        looks,
    }
}

// A refused command leaves the counters as they were.
pub fn refuse(number: usize, reason: ItemReason, counters: Counters, looks: Looks) -> Answered
    ensures { result ≡ giving number (Refused reason) counters looks }
{
    give(number, Outcome::Refused(reason), counters, looks)
}

// An item without a fault that a bin can hold with its trailer: to the first permitted bin with space, else to a new one, else refused. All goes by the
// stored size; of 06 it is the greatest, and the least is noted too.
fn place_fitting(
    store: &mut Store,
    ledger: &mut [Row; BINS],
    terms: Terms,
    counters: Counters,
    number: usize,
    command: Command,
) -> Answered
    requires { Placeable terms.opening terms.left terms.shape number command (state store.old ledger.old counters) }
    ensures { Done terms.opening terms.left terms.shape (state store.old ledger.old counters) number command result.answer result.looks.count (state store.new ledger.new result.next) }
{
    let opening = terms.opening;
    let size = sending::size_of(command);
    let stored = size + opening.trailer as u32;
    let tree = aim::tree_for(stored, opening.capacity, counters.b2);
    let offered = find_spot(&store.trees, terms, counters.opened, tree, stored);
    let looks = offered.looks;
    let Some(spot) = offered.spot else {
        return refuse(number, ItemReason::StockSpent, counters, looks);
    };
    let class = aim::home_of(tree) as u32;
    let a = aim::a_for(tree);
    let place = spot.place;
    let next = aim::accept(counters, tree, spot.opened, opening.m);
    let bin = (place + 1) as u16;
    let free = spot.free;
    let outcome = Outcome::Placed { bin, free };
    let row = ledger::enter(ledger, place, class, free, a);
    let lies = bin as u32;
    let least = sending::least_word(opening, command);
    let note = Note {
        bin: lies,
        size: stored,
        least,
        greatest: stored,
    };
    store.notes[number] = note;
    // Last: how far a store climbs is not foreseen by the processor, and nothing but the next command is to wait for it.
    index::show(&mut store.trees, terms.shape, place, row);
    give(number, outcome, next, looks)
}

// The largest bare size that a bin can hold with its trailer; 0 if there is none.
fn largest(opening: Opening) -> u32
    ensures { result ≡ opening.capacity - opening.trailer }
{
    let capacity = opening.capacity;
    let trailer = opening.trailer as u32;
    if trailer < capacity {
        capacity - trailer
    } else {
        0
    }
}

// "Where a master goes": Refined First-Fit, one item, of 02 or 06. One test tells that it has no fault and that its stored size, which may be more than 32
// bits hold, is not above the capacity; which of the two it is, is asked only where the test fails.
pub fn place(
    store: &mut Store,
    ledger: &mut [Row; BINS],
    terms: Terms,
    counters: Counters,
    number: usize,
    command: Command,
) -> Answered
    requires ready { Ready terms.opening terms.left terms.shape number (state store.old ledger.old counters) }
    requires sends { shelves_item command ≡ true }
    ensures { Done terms.opening terms.left terms.shape (state store.old ledger.old counters) number command result.answer result.looks.count (state store.new ledger.new result.next) }
{
    let most = largest(terms.opening);
    if sending::may_fit(command, most) {
        return place_fitting(store, ledger, terms, counters, number, command);
    }
    if let Some(reason) = sending::fault(command) {
        return refuse(number, reason, counters, Looks::NONE);
    }
    refuse(number, ItemReason::AboveCapacity, counters, Looks::NONE)
}
