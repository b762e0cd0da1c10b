// The core of the plan checker of document 01: the entries' refusals 13 to 16 in its order, each with its place, over number rows. A bin is
// document 01's cartridge, an item its master. Nothing that the caller lends is written.
#![tactic(auto)]

ghost use Rattle.std.specs.Prelude.{◌≡◌, ◌+◌, ◌^◌, ◌<◌};
ghost use Rattle.packing.specs.Plans.{plan_of, check};
ghost use Rattle.plan_rows.specs.Loads.{LoadsKept, Checked};

use limits::MOST_ROWS;
use packing::{Entry, PlanReason, PlanResult, Refusal};

// A load for each bin number; place 0 is no bin's.
pub const LOADS: usize = MOST_ROWS + 1;

// The entry at place i + 1, where the loads are those of the entries before it and `item` is the size of its item: 16, 13, 14, 15. A sound entry's size is
// added to the load of its bin.
pub fn check_entry(
    loads: &mut [u32; LOADS],
    entry: Entry,
    item: u32,
    i: usize,
    capacity: u32,
    k: u32,
) -> PlanResult
    requires loads { LoadsKept capacity k loads.old }
    requires place { i + 1 < 2 ^ 64 }
    ensures { Checked capacity k loads.old entry item i result loads.new }
{
    let size = entry.size;
    let bin = entry.bin;
    let place = i + 1;
    if size != item {
        return Err(Refusal {
            reason: PlanReason::OtherItems,
            place,
        });
    }
    if !limits::is_within(1, capacity, size) {
        return Err(Refusal {
            reason: PlanReason::SizeOutside,
            place,
        });
    }
    if !limits::is_within(1, k, bin) {
        return Err(Refusal {
            reason: PlanReason::BinOutside,
            place,
        });
    }
    let held = loads[bin as usize];
    let load = held + size;
    if capacity < load {
        return Err(Refusal {
            reason: PlanReason::Overfull,
            place,
        });
    }
    loads[bin as usize] = load;
    Ok(())
}

// The plan checker over number rows: a plan's sizes, its bin numbers, and the sizes of the items.
pub fn check_rows(sizes: &[u32], bins: &[u32], items: &[u32], capacity: u32, k: u32) -> PlanResult
    ensures { result ≡ check capacity k (plan_of sizes.now bins.now) items.now }
{
    let rows = sizes.len().min(bins.len());
    plan_limits::check_limits(capacity, k, rows, items.len())?;
    let mut loads = [0u32; LOADS];
    for (i, item) in items.iter().enumerate() {
        let entry = Entry {
            size: sizes[i],
            bin: bins[i],
        };
        check_entry(&mut loads, entry, *item, i, capacity, k)?;
    }
    Ok(())
}
