// What the plan checker answers on the worked plans of document 01 and on a case of each of its refusals. Each case is a line of two answers: of
// the core over two rows, and of the checker over the same entries. An answer is `passed`, or the refusal's number and place. The expected
// answers of all cases are the file stdout, which the gate compares.
#![tactic(auto)]

use limits::MOST_ROWS;
use packing::{Entry, PlanResult, Refusal};
use std::{fmt, io};

// An answer as it is shown.
#[derive(Clone, Copy)]
struct Shown(PlanResult);

impl fmt::Display for Shown {
    fn fmt<W: fmt::Write>(&self, f: &mut fmt::Formatter<W>) -> fmt::Result {
        match self.0 {
            Ok(()) => write!(f, "passed"),
            Err(Refusal { reason, place }) => write!(f, "{} at {place}", u16::from(reason)),
        }
    }
}

// One place more than a plan may have rows, so that refusal 12 can occur.
const HELD: usize = MOST_ROWS + 1;

fn both(
    rt: &impl Print,
    sizes: &[u32],
    bins: &[u32],
    items: &[u32],
    capacity: u32,
    k: u32,
) -> io::Result<()> {
    let of_rows = plan_rows::check_rows(sizes, bins, items, capacity, k);
    // The two rows as entries, as many as they both have and there are places for.
    let mut entries = [Entry { size: 0, bin: 0 }; HELD];
    let rows = sizes.iter().zip(bins);
    for (entry, (size, bin)) in entries.iter_mut().zip(rows) {
        *entry = Entry {
            size: *size,
            bin: *bin,
        };
    }
    let held = sizes.len().min(bins.len()).min(HELD);
    let of_entries = plan::check_plan(&entries[..held], items, capacity, k);
    println!(rt; "{}, {}", Shown(of_rows), Shown(of_entries))
}

// The sizes of the list after Yao's Theorem 1, and the cartridges of a plan of it with k 7.
const THEOREM_1: [u32; 21] = [
    69632, 63488, 65024, 65792, 65408, 65504, 65552, 65528, 65534, 66560, 65600, 65540, 135168,
    132096, 131328, 131136, 131088, 131076, 131073, 57344, 65537,
];

const SEVEN: [u32; 21] = [
    1, 2, 3, 3, 4, 5, 5, 6, 7, 2, 4, 6, 1, 2, 3, 4, 5, 6, 7, 1, 7,
];

// The worked plans.
fn worked(rt: &impl Print) -> io::Result<()> {
    both(rt, &[30, 30], &[1, 1], &[30, 30], 60, 1)?;
    both(rt, &[30, 31], &[1, 1], &[30, 31], 60, 1)?;
    both(rt, &[], &[], &[], 60, 0)?;
    let sizes = THEOREM_1;
    let bins = SEVEN;
    both(rt, &sizes, &bins, &sizes, 262144, 7)?;
    both(rt, &sizes, &bins, &sizes, 262144, 6)
}

// One case at each limit, and one past it.
fn limits(rt: &impl Print) -> io::Result<()> {
    // 11
    both(rt, &[1], &[1], &[1], 0, 1)?;
    both(rt, &[1], &[1], &[1], 1, 1)?;
    both(rt, &[1], &[1], &[1], 16777216, 1)?;
    both(rt, &[1], &[1], &[1], 16777217, 4097)?;
    // 12: k, the plan, the items
    both(rt, &[1], &[1], &[1], 60, 4096)?;
    both(rt, &[1], &[1], &[1], 60, 4097)?;
    let full = [1u32; 4096];
    let over = [1u32; 4097];
    both(rt, &full, &full, &full, 4096, 1)?;
    both(rt, &over, &over, &full, 4096, 1)?;
    both(rt, &full, &full, &over, 4096, 1)?;
    // 16 where the lengths differ
    both(rt, &[5, 5], &[1, 1], &[5, 5, 5], 60, 1)?;
    both(rt, &[5, 5], &[1, 1], &[5], 60, 1)
}

// One case of each refusal of an entry, and of their order.
fn entries(rt: &impl Print) -> io::Result<()> {
    // 16, before 13
    both(rt, &[5, 6], &[1, 1], &[5, 5], 60, 1)?;
    both(rt, &[0], &[1], &[5], 60, 1)?;
    // 13, before 14
    both(rt, &[5, 0], &[1, 1], &[5, 0], 60, 1)?;
    both(rt, &[61], &[0], &[61], 60, 1)?;
    both(rt, &[60], &[1], &[60], 60, 1)?;
    // 14
    both(rt, &[5], &[0], &[5], 60, 1)?;
    both(rt, &[60, 60], &[1, 2], &[60, 60], 60, 1)?;
    // 15
    both(rt, &[30, 20, 30], &[1, 2, 1], &[30, 20, 30], 60, 2)?;
    both(rt, &[30, 20, 31], &[1, 2, 1], &[30, 20, 31], 60, 2)?;
    let full = [1u32; 4096];
    both(rt, &full, &full, &full, 4095, 1)
}

fn main(rt: HostRuntime) -> io::Result<()> {
    worked(&rt)?;
    limits(&rt)?;
    entries(&rt)
}
