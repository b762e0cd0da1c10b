// "What the shelf consists of": tests of document 01's limits.
#![tactic(auto)]

ghost use Rattle.std.specs.Prelude.{◌≡◌};
ghost use Rattle.packing.specs.Limits.{within, opening_good};

use packing::Opening;

// The most of a capacity, of commands after the opening, and of the rows of a plan and its k.
pub const MOST_CAPACITY: u32 = 16_777_216;

pub const MOST_COMMANDS: usize = 4_096;

pub const MOST_ROWS: usize = 4_096;

// Whether a number is within limits, both of them included.
pub fn is_within(least: u32, most: u32, n: u32) -> bool
    ensures { result ≡ within least most n }
{
    (least..=most).contains(&n)
}

// Whether each operand of the opening is within its limits.
pub fn opening_good(o: Opening) -> bool
    ensures { result ≡ opening_good o }
{
    is_within(1, MOST_CAPACITY, o.capacity)
        && is_within(1, 512, o.stock as u32)
        && is_within(6, 9, o.m as u32)
}
