// The plan checker of document 01 over a lent slice of entries: each entry goes to the step of the core (crate plan_rows).
#![tactic(auto)]

ghost use Rattle.std.specs.Prelude.{◌≡◌};
ghost use Rattle.packing.specs.Refusals.{plan_gives};
ghost use Rattle.packing.specs.Plans.{check};
ghost use Rattle.worst_case.specs.PlanFits.{Exact};

use packing::{Entry, PlanResult};
use plan_rows::LOADS;

// "A plan is a row of entries, each a size and a cartridge number": the plan checker of document 01, which names the form: a lent slice of entries with a thin
// walk of its own, beside the core over two rows. (And one walk over any iterator of entries is no plainer: its contract speaks of all that it may yield.)
pub fn check_plan(plan: &[Entry], items: &[u32], capacity: u32, k: u32) -> PlanResult
    ensures result { plan_gives result ≡ plan_gives (check capacity k plan.now items.now) }
    ensures exact { Exact capacity k plan.now items.now result }
{
    plan_limits::check_limits(capacity, k, plan.len(), items.len())?;
    let mut loads = [0u32; LOADS];
    for (i, (entry, item)) in plan.iter().zip(items).enumerate() {
        plan_rows::check_entry(&mut loads, *entry, *item, i, capacity, k)?;
    }
    Ok(())
}
