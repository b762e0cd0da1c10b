// What the plan checker of document 01 tests before it looks at an entry: refusals 11, 12, and 16 where the two rows differ in length. A bin is
// document 01's cartridge, an item its master. Lengths are any 64-bit numbers, and no row is needed here.
#![tactic(auto)]

ghost use Rattle.std.specs.Prelude.{◌≡◌, [], ◌∷◌};
ghost use Rattle.packing.specs.Plans.{lengths_good, limits};

use limits::{MOST_CAPACITY, MOST_ROWS};
use packing::{PlanReason, PlanResult, Refusal};

// What 12 asks: neither k nor a length is above the most.
#[tactic(auto, unfolding(packing::specs::Prelude::any))]
fn lengths_good(k: usize, rows: usize, items: usize) -> bool
    ensures { result ≡ lengths_good (k ∷ rows ∷ items ∷ []) }
{
    k <= MOST_ROWS && rows <= MOST_ROWS && items <= MOST_ROWS
}

// 11, 12, 16; passed where none of them refuses.
#[tactic(auto, unfolding(packing::specs::Plans::limits))]
pub fn check_limits(capacity: u32, k: u32, rows: usize, items: usize) -> PlanResult
    ensures { result ≡ limits capacity k rows items }
{
    if !limits::is_within(1, MOST_CAPACITY, capacity) {
        return Err(Refusal {
            reason: PlanReason::CapacityOutside,
            place: 0,
        });
    }
    if !lengths_good(k as usize, rows, items) {
        return Err(Refusal {
            reason: PlanReason::TooLong,
            place: 0,
        });
    }
    if rows != items {
        return Err(Refusal {
            reason: PlanReason::OtherItems,
            place: rows.min(items) + 1,
        });
    }
    Ok(())
}
