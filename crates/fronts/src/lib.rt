// The front of a command stream: the operand-width table, operands, and the command that stands there.
#![tactic(auto)]

ghost use Rattle.std.specs.Prelude.{◌≡◌, ◌≤◌, length, drop};
ghost use Rattle.packing.specs.Streams.{is_opening, widths, lookup, names_none, whole, front_of, WholeFront};
ghost use Rattle.fronts.specs.Fronts.{table_width, CommandThere, TwoOperandsThere, command_with, InStream, Operand, means};

use packing::{Command, StreamReason, WidthRow};

// A command and its operand width.
#[derive(Clone, Copy)]
pub struct WholeCommand {
    pub command: Command,
    pub width: usize,
}

// "One table gives each command byte its operand width." (An array of byte and width rows is the form that document 01 names.)
const WIDTHS: [WidthRow; 8] = [
    WidthRow {
        opcode: 0x01,
        width: 7,
    },
    WidthRow {
        opcode: 0x02,
        width: 4,
    },
    WidthRow {
        opcode: 0x03,
        width: 0,
    },
    WidthRow {
        opcode: 0x04,
        width: 2,
    },
    WidthRow {
        opcode: 0x05,
        width: 1,
    },
    WidthRow {
        opcode: 0x06,
        width: 8,
    },
    WidthRow {
        opcode: 0x07,
        width: 6,
    },
    WidthRow {
        opcode: 0x11,
        width: 9,
    },
];

// The operand width of a command byte: that of the first row that has it.
pub fn width_of(opcode: u8) -> Option<usize>
    ensures { result ≡ lookup opcode widths }
{
    for row in &WIDTHS {
        if row.opcode == opcode {
            return Some(row.width);
        }
    }
    None
}

// The operand width of a byte that is in the table; 0 for any other.
pub fn table_width(opcode: u8) -> usize
    ensures { result ≡ table_width opcode }
{
    width_of(opcode).unwrap_or(0)
}

// "Either opening may start a stream, once."
pub fn is_opening(opcode: u8) -> bool
    ensures { result ≡ is_opening opcode }
{
    matches!(opcode, 0x01 | 0x11)
}

// An unsigned operand of up to 4 bytes, most significant byte first.
#[tactic(auto, using(crate::proofs::Operands::begun_fits, crate::proofs::Operands::begun_next))]
pub fn operand(s: &[u8], at: usize, width: usize) -> u32
    requires { InStream at width s.now }
    ensures { Operand at width s.now result }
{
    let mut n: u32 = 0;
    for byte in &s[at..at + width] {
        n = n * 256 + *byte as u32;
    }
    n
}

// Whether a command that is there with its operands is 05 and names no production: its byte is above 1.
#[tactic(auto, unfolding(packing::specs::Streams::widths, packing::specs::Streams::lookup))]
fn names_none(opcode: u8, rest: &[u8]) -> bool
    requires { CommandThere opcode rest.now }
    ensures { result ≡ names_none opcode (drop 1 rest.now) }
{
    opcode == 5 && 1 < operand(rest, 1, 1)
}

// The command of an opcode that has two operands: 06, the least size and the greatest; 07, the number of a command and a size. (A function of its own, since
// four tests in one would be a jump through a table: see `command_of`.)
#[tactic(auto, unfolding(packing::specs::Streams::widths, packing::specs::Streams::lookup))]
fn two_operands_of(opcode: u8, rest: &[u8]) -> WholeCommand
    requires { TwoOperandsThere opcode rest.now }
    ensures { result ≡ command_with opcode rest.now }
{
    if opcode == 6 {
        return WholeCommand {
            command: Command::Reserve {
                least: operand(rest, 1, 4),
                greatest: operand(rest, 5, 4),
            },
            width: table_width(6),
        };
    }
    WholeCommand {
        command: Command::Settle {
            named: operand(rest, 1, 2),
            size: operand(rest, 3, 4),
        },
        width: table_width(7),
    }
}

// The command of an opcode that is in the table and is no opening, whole with its operands, and its width. (With the opcode written out, the compiler
// makes a constant of what the table has for it. One `match` was tried: every command then jumps through a table, which is slower where all are 02.)
#[tactic(auto, unfolding(packing::specs::Streams::widths, packing::specs::Streams::lookup))]
fn command_of(opcode: u8, rest: &[u8]) -> WholeCommand
    requires { CommandThere opcode rest.now }
    ensures { result ≡ command_with opcode rest.now }
{
    if opcode == 2 {
        return WholeCommand {
            command: Command::Shelve(operand(rest, 1, 4)),
            width: table_width(2),
        };
    }
    if opcode == 4 {
        return WholeCommand {
            command: Command::Withdraw(operand(rest, 1, 2)),
            width: table_width(4),
        };
    }
    if opcode == 5 {
        return WholeCommand {
            command: Command::Switch(packing::production_of(operand(rest, 1, 1))),
            width: table_width(5),
        };
    }
    if 5 < opcode {
        return two_operands_of(opcode, rest);
    }
    WholeCommand {
        command: Command::Count,
        width: table_width(3),
    }
}

// Reads the command at the front of a stream. At one command the order is 2, 4, 3, 18.
pub fn read_front(rest: &[u8]) -> Result<WholeCommand, StreamReason>
    requires { 1 ≤ length rest.now }
    ensures { means result ≡ front_of rest.now }
{
    let opcode = rest[0];
    let width = width_of(opcode).ok_or(StreamReason::UnknownOpcode)?;
    if is_opening(opcode) {
        return Err(StreamReason::SecondOpening);
    }
    if rest.len() - 1 < width {
        return Err(StreamReason::CutShort);
    }
    if names_none(opcode, rest) {
        return Err(StreamReason::NoProduction);
    }
    // The width of the table, and not that of the command: who asks for the width alone makes no command, and `command_of` is laid into the loop over them.
    let command = command_of(opcode, rest).command;
    Ok(WholeCommand { command, width })
}

// The command at the front of a stream where the first pass has found no fault: nothing is checked again.
pub fn accepted_front(rest: &[u8]) -> WholeCommand
    requires { WholeFront rest.now }
    ensures { whole result.command result.width ≡ front_of rest.now }
{
    command_of(rest[0], rest)
}
