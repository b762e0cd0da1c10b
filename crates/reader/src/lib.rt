// The reader of command streams: the opening, what follows it, and a first pass that finds the verdict of the whole stream.
#![tactic(auto)]

ghost use Rattle.std.specs.Prelude.{◌≡◌, drop};
ghost use Rattle.packing.specs.Limits.{most_commands};
ghost use Rattle.packing.specs.Streams.{first_byte, opening_length, behind_opening, opening_of, commands, read};
ghost use Rattle.reader.specs.Reading.{Opened, summary};
ghost use Rattle.reader.specs.Items.{item_length, ItemsAhead};

use limits::MOST_COMMANDS;
use packing::{Opening, Refusal, StreamReason};

// What the first pass keeps of a stream that it accepts: the opening, and the number of commands after it.
#[derive(Clone, Copy)]
pub struct Accepted {
    pub opening: Opening,
    pub commands: usize,
}

// The trailer of the opening: 11 alone has one.
fn trailer_of(stream: &[u8]) -> u16
    requires { Opened stream.now }
    ensures { result ≡ (opening_of (first_byte stream.now) (drop 1 stream.now)).trailer }
{
    if stream[0] == 0x11 {
        fronts::operand(stream, 8, 2) as u16
    } else {
        0
    }
}

// The opening's operands, behind its opcode.
pub fn opening_of(stream: &[u8]) -> Opening
    requires { Opened stream.now }
    ensures { result ≡ opening_of (first_byte stream.now) (drop 1 stream.now) }
{
    Opening {
        capacity: fronts::operand(stream, 1, 4),
        stock: fronts::operand(stream, 5, 2) as u16,
        m: fronts::operand(stream, 7, 1) as u8,
        trailer: trailer_of(stream),
    }
}

// What follows the opening, as a part of the stream. How long an opening is, the table tells.
#[tactic(auto, using(crate::proofs::Openings::width_there))]
pub fn behind_opening(stream: &[u8]) -> &[u8]
    requires { Opened stream.now }
    ensures { result.now ≡ behind_opening stream.now }
{
    let width = fronts::table_width(stream[0]);
    &stream[width + 1..]
}

// The bytes of an item of 02, its opcode with it.
#[tactic(auto, unfolding(packing::specs::Streams::widths, packing::specs::Streams::lookup))]
fn item_length() -> usize
    ensures { result ≡ item_length }
{
    fronts::table_width(2) + 1
}

// How many whole items of 02 stand at the front of a stream, one behind the other, counted up to so many. Most commands are such, and these are passed
// without a question for the other opcodes. (As a chain over `chunks_exact` it was tried: the proof that the closure may be called did not close.)
fn items_ahead(rest: &[u8], most: usize) -> usize
    ensures { ItemsAhead rest.now most result }
{
    let used = item_length();
    let mut behind = rest;
    let mut count: usize = 0;
    while count < most && used <= behind.len() && behind[0] == 2 {
        behind = &behind[used..];
        count += 1;
    }
    count
}

// Reads the commands after the opening, of which there may be 4,096; refusal 6 comes first. (With `map_err` and `?` in place of the match the proof did
// not close: no clause names what the closure makes.)
fn scan(stream: &[u8], opening: Opening) -> Result<Accepted, Refusal<StreamReason>>
    requires { Opened stream.now }
    ensures { result ≡ summary (commands opening most_commands (opening_length stream.now) (behind_opening stream.now)) }
{
    let mut rest = behind_opening(stream);
    let mut commands: usize = 0;
    while !rest.is_empty() {
        let place = stream.len() - rest.len();
        if commands == MOST_COMMANDS {
            return Err(Refusal {
                reason: StreamReason::TooManyCommands,
                place,
            });
        }
        let items = items_ahead(rest, MOST_COMMANDS - commands);
        if 0 < items {
            rest = &rest[items * item_length()..];
            commands += items;
        } else {
            match fronts::read_front(rest) {
                Ok(front) => {
                    rest = &rest[front.width + 1..];
                    commands += 1;
                }
                Err(reason) => return Err(Refusal { reason, place }),
            }
        }
    }
    Ok(Accepted { opening, commands })
}

// The first pass: the verdict of the whole stream but for refusal 7. At the opening the order is 1, 3, 5.
pub fn validate(stream: &[u8]) -> Result<Accepted, Refusal<StreamReason>>
    ensures { result ≡ summary (read stream.now) }
{
    let Some(&opcode) = stream.first() else {
        return Err(Refusal {
            reason: StreamReason::NoOpening,
            place: 0,
        });
    };
    if !fronts::is_opening(opcode) {
        return Err(Refusal {
            reason: StreamReason::NoOpening,
            place: 0,
        });
    }
    if stream.len() - 1 < fronts::table_width(opcode) {
        return Err(Refusal {
            reason: StreamReason::CutShort,
            place: 0,
        });
    }
    let opening = opening_of(stream);
    if !limits::opening_good(opening) {
        return Err(Refusal {
            reason: StreamReason::OutsideLimits,
            place: 0,
        });
    }
    scan(stream, opening)
}
