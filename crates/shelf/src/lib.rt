// The public calls of the shelf, each with its whole contract: the result and every lent word, for every input.
#![tactic(auto)]

ghost use Rattle.std.specs.Prelude.{◌≡◌, ◌↔◌, ◌++◌, length, drop};
ghost use Rattle.packing.specs.Refusals.{word, free_units, stream_gives, plan_gives, repack_gives, pair_gives};
ghost use Rattle.packing.specs.Streams.{words_lent, verdict};
ghost use Rattle.packing.specs.Run.{result as run_result, row_at_exit};
ghost use Rattle.packing.specs.Refusing.{pass};
ghost use Rattle.packing.specs.Plans.{plan_of, check};
ghost use Rattle.packing.specs.Rows.{check_row, SoundRow, check_pair, SoundPair};
ghost use Rattle.worst_case.specs.PlanFits.{Exact};
ghost use Rattle.decreasing.specs.Repack.{repack_result, answers_at_exit};
ghost use Rattle.decreasing.specs.Claims.{RepackPromises};
ghost use Rattle.matching.specs.Pairs.{pair_result, places_at_exit};
ghost use Rattle.matching.specs.Claims.{PairPromises};
ghost use Rattle.sheet.specs.Sheet.{sheet};
ghost use Rattle.sheet.specs.Claims.{SheetPromises};
ghost use Rattle.promises.specs.Promises.{Promises};

use packing::{PairResult, PlanResult, RepackResult, StreamResult};
pub use plan::check_plan;

// Shelves the items of a command stream, and answers each command by a word of each of the two rows that the caller lends. `promises` is all that holds of
// a stream that no refusal stops, and of the two packings so made, field by field (promises/specs/Promises.antt): among them that no bin is overfull, that
// each item goes to the lowest permitted bin with space, and the figures of demand 3. (Two rows of words, as the interface for C lends them.)
pub fn shelve(stream: &[u8], answers: &mut [u16], free: &mut [u32]) -> StreamResult
    ensures result { stream_gives result ≡ stream_gives (run_result (verdict stream.now (words_lent answers.old free.old))) }
    ensures answers { answers.new ≡ row_at_exit word (verdict stream.now (words_lent answers.old free.old)) answers.old }
    ensures free { free.new ≡ row_at_exit free_units (verdict stream.now (words_lent answers.old free.old)) free.old }
    ensures promises { Promises stream.now (words_lent answers.old free.old) }
{
    stream::shelve(stream, answers, free)
}

// The vault sheet of a stream, at the front of the bytes that the caller lends. `promises` is all that holds of the sheet of an accepted stream, field by
// field (sheet/specs/Claims.antt): its rows, its loads and its pages.
pub fn print_sheet(stream: &[u8], out: &mut [u8; sheet::N]) -> usize
    ensures result { result ≡ length (sheet stream.now) }
    ensures bytes { out.new ≡ sheet stream.now ++ drop (length (sheet stream.now)) out.old }
    ensures promises { SheetPromises stream.now }
{
    sheet::print(stream, out)
}

// Checks a plan that lies in two rows, of sizes and of bin numbers, against the sizes of the items.
pub fn check_rows(sizes: &[u32], bins: &[u32], items: &[u32], capacity: u32, k: u32) -> PlanResult
    ensures result { plan_gives result ≡ plan_gives (check capacity k (plan_of sizes.now bins.now) items.now) }
    ensures exact { Exact capacity k (plan_of sizes.now bins.now) items.now result }
{
    plan_rows::check_rows(sizes, bins, items, capacity, k)
}

// Repacks a closed shelf: each size's new bin goes to the answers, in the order of the row, and the new count is returned, with whether it is not below the
// old one. `exact` says which rows are not refused, `promises` what holds of these, field by field (decreasing/specs/Claims.antt): among them that the plan
// passes the checker, and the figure against every plan that does.
pub fn repack(sizes: &[u32], answers: &mut [u16], capacity: u32, old: u32) -> RepackResult
    ensures result { repack_gives result ≡ repack_gives (repack_result capacity sizes.now old (check_row capacity (length answers.old) sizes.now)) }
    ensures answers { answers.new ≡ answers_at_exit capacity sizes.now (check_row capacity (length answers.old) sizes.now) answers.old }
    ensures exact { (check_row capacity (length answers.old) sizes.now ≡ pass) ↔ SoundRow capacity (length answers.old) sizes.now }
    ensures promises { check_row capacity (length answers.old) sizes.now ≡ pass → RepackPromises capacity sizes.now }
{
    repack::repack(sizes, answers, capacity, old)
}

// Pairs two rows: for each picture the place of its sound goes to the answers, or 0, and the number of pairs is returned. `exact` says which rows are not
// refused, `promises` what holds of the pairs, field by field (matching/specs/Claims.antt): among them that each pair fits, that no sound is used twice, and
// that no pairing of the two rows has more.
pub fn pair(pictures: &[u32], sounds: &[u32], answers: &mut [u16], capacity: u32) -> PairResult
    ensures result { pair_gives result ≡ pair_gives (pair_result capacity pictures.now sounds.now (check_pair capacity (length answers.old) pictures.now sounds.now)) }
    ensures answers { answers.new ≡ places_at_exit capacity pictures.now sounds.now (check_pair capacity (length answers.old) pictures.now sounds.now) answers.old }
    ensures exact { (check_pair capacity (length answers.old) pictures.now sounds.now ≡ pass) ↔ SoundPair capacity (length answers.old) pictures.now sounds.now }
    ensures promises { PairPromises capacity pictures.now sounds.now }
{
    pairs::pair(pictures, sounds, answers, capacity)
}
