// The types that the code shares with its definitions: size classes, operands, commands, answers and refusals of document 01. The packing of
// document 01 is its shelf, a bin its cartridge, an item its master. The numbers of the refusals are document 01's (specs/Refusals.antt).
#![tactic(auto)]

mod refusals;

pub use refusals::{item_reason, production_of};

// "Size classes": A above a half of the capacity, B1 above two fifths, B2 above a third, X the rest.
#[derive(Clone, Copy)]
pub enum SizeClass {
    A,
    B1,
    B2,
    X,
}

// A number for each size class.
#[derive(Clone, Copy)]
pub struct PerClass {
    pub a: usize,
    pub b1: usize,
    pub b2: usize,
    pub x: usize,
}

// The operands of the opening; the trailer, which is written after each item, is 0 where an opening has none.
#[derive(Clone, Copy)]
pub struct Opening {
    pub capacity: u32,
    pub stock: u16,
    pub m: u8,
    pub trailer: u16,
}

// The two productions, which draw on one stock: number 0, in which a stream starts, and number 1.
#[derive(Clone, Copy, PartialEq, Eq)]
pub enum Production {
    First = 0,
    Second = 1,
}

// A command after the opening: 02, shelve an item of this bare size; 03, how many bins are opened; 04, take out the item that the command of this
// number shelved; 05, the commands after it belong to this production; 06, shelve an item whose bare size is known to be within this range; 07, the item
// that the command of this number, an 06, shelved has this bare size.
#[derive(Clone, Copy)]
pub enum Command {
    Shelve(u32),
    Count,
    Withdraw(u32),
    Switch(Production),
    Reserve { least: u32, greatest: u32 },
    Settle { named: u32, size: u32 },
}

// A row of the table that gives each command byte its operand width.
#[derive(Clone, Copy)]
pub struct WidthRow {
    pub opcode: u8,
    pub width: usize,
}

// Why an item is refused: 8 or in its place 19, 9, 10; why none is taken out: 17; and why none is settled: 20, 21.
#[derive(Clone, Copy)]
pub enum ItemReason {
    SizeZero = 8,
    AboveCapacity = 9,
    StockSpent = 10,
    NotShelved = 17,
    RangeWrong = 19,
    NotReserved = 20,
    OutsideRange = 21,
}

// What a command comes to: the bin of its item and the units that the item leaves free there, the number of bins opened, the bin that the item named
// has left and the units that are then free there, the production that the commands after it belong to, the bin of the item that is settled and the units
// that are then free there, or a refusal.
#[derive(Clone, Copy)]
pub enum Outcome {
    Placed { bin: u16, free: u32 },
    Counted(u16),
    Withdrawn { bin: u16, free: u32 },
    Switched(Production),
    Settled { bin: u16, free: u32 },
    Refused(ItemReason),
}

// "An answer joins the command's number with placed, counted or refused", or withdrawn, switched or settled.
#[derive(Clone, Copy)]
pub struct Answer {
    pub number: usize,
    pub outcome: Outcome,
}

// What the walk of a count hands back: the figure, which is the number of bins opened, and the places of the stock that it read to tell.
#[derive(Clone, Copy)]
pub struct Tally {
    pub figure: u16,
    pub read: u16,
}

// Why a whole stream is refused: 1 to 7, and 18.
#[derive(Clone, Copy)]
pub enum StreamReason {
    NoOpening = 1,
    UnknownOpcode = 2,
    CutShort = 3,
    SecondOpening = 4,
    OutsideLimits = 5,
    TooManyCommands = 6,
    TooFewWords = 7,
    NoProduction = 18,
}

// A refusal: its reason, and where it is, which is a stream's offset or the place of an entry or a size.
#[derive(Clone, Copy)]
pub struct Refusal<R> {
    pub reason: R,
    pub place: usize,
}

// What an accepted stream comes to: items still shelved and bins opened, of both productions, and the largest looks of a command.
#[derive(Clone, Copy)]
pub struct StreamTotals {
    pub items: usize,
    pub opened: usize,
    pub looks: usize,
}

// What the stream call returns.
pub type StreamResult = Result<StreamTotals, Refusal<StreamReason>>;

// An entry of a plan: an item's size and its bin's number.
#[derive(Clone, Copy)]
pub struct Entry {
    pub size: u32,
    pub bin: u32,
}

// Why a plan is refused: 11 to 16.
#[derive(Clone, Copy)]
pub enum PlanReason {
    CapacityOutside = 11,
    TooLong = 12,
    SizeOutside = 13,
    BinOutside = 14,
    Overfull = 15,
    OtherItems = 16,
}

// What the plan checker returns.
pub type PlanResult = Result<(), Refusal<PlanReason>>;

// Why a call over a row of sizes is refused: 11 to 13, as a plan is, and 22.
#[derive(Clone, Copy)]
pub enum RowReason {
    CapacityOutside = 11,
    TooLong = 12,
    SizeOutside = 13,
    TooFewWords = 22,
}

// What the checks of such a call come to.
pub type RowResult = Result<(), Refusal<RowReason>>;

// What a repacking comes to: the bins that it takes, and whether the move saves nothing.
#[derive(Clone, Copy)]
pub struct Repacked {
    pub count: usize,
    pub saves_nothing: bool,
}

// What a repacking returns.
pub type RepackResult = Result<Repacked, Refusal<RowReason>>;

// What a pairing of two rows returns: the number of pairs.
pub type PairResult = Result<usize, Refusal<RowReason>>;
