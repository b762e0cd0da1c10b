// The calls for C and Rust, over the public calls of the crate shelf: a result is one 64-bit number. include/shelf.h documents them.
#![tactic(auto)]

ghost use Rattle.std.specs.Prelude.{◌≡◌, ◌++◌, length, drop};
ghost use Rattle.packing.specs.Refusals.{word, free_units};
ghost use Rattle.packing.specs.Streams.{words_lent, verdict};
ghost use Rattle.packing.specs.Run.{result as run_result, row_at_exit};
ghost use Rattle.packing.specs.Refusing.{pass};
ghost use Rattle.packing.specs.Plans.{plan_of, check};
ghost use Rattle.packing.specs.Rows.{check_row, check_pair};
ghost use Rattle.decreasing.specs.Repack.{repack_result, answers_at_exit};
ghost use Rattle.decreasing.specs.Claims.{RepackPromises};
ghost use Rattle.matching.specs.Pairs.{pair_result, places_at_exit};
ghost use Rattle.matching.specs.Claims.{PairPromises};
ghost use Rattle.sheet.specs.Sheet.{sheet};
ghost use Rattle.sheet.specs.Claims.{SheetPromises};
ghost use Rattle.promises.specs.Promises.{Promises};
ghost use Rattle.codes.specs.Codes.{stream_code, FiguresFit, plan_code, PlaceFits, repack_code, RepackFits, pair_code, PairFits, ZeroExactly};

// Shelves the items of a command stream (`shelf::shelve`).
#[unsafe(no_mangle)]
pub extern "C" fn shelf_stream(stream: &[u8], answers: &mut [u16], free: &mut [u32]) -> u64
    ensures code { result ≡ stream_code (run_result (verdict stream.now (words_lent answers.old free.old))) }
    ensures fits { FiguresFit (run_result (verdict stream.now (words_lent answers.old free.old))) }
    ensures answers { answers.new ≡ row_at_exit word (verdict stream.now (words_lent answers.old free.old)) answers.old }
    ensures free { free.new ≡ row_at_exit free_units (verdict stream.now (words_lent answers.old free.old)) free.old }
    ensures promises { Promises stream.now (words_lent answers.old free.old) }
{
    let r = shelf::shelve(stream, answers, free);
    codes::stream_code(r)
}

// The vault sheet of a stream (`shelf::print_sheet`).
#[unsafe(no_mangle)]
pub extern "C" fn shelf_sheet(stream: &[u8], out: &mut [u8; sheet::N]) -> u64
    ensures result { result ≡ length (sheet stream.now) }
    ensures bytes { out.new ≡ sheet stream.now ++ drop (length (sheet stream.now)) out.old }
    ensures promises { SheetPromises stream.now }
{
    shelf::print_sheet(stream, out) as u64
}

// Checks a plan in two rows (`shelf::check_rows`): 0 is passed.
#[unsafe(no_mangle)]
pub extern "C" fn shelf_check_plan(
    sizes: &[u32],
    bins: &[u32],
    items: &[u32],
    capacity: u32,
    k: u32,
) -> u64
    ensures code { result ≡ plan_code (check capacity k (plan_of sizes.now bins.now) items.now) }
    ensures fits { PlaceFits (check capacity k (plan_of sizes.now bins.now) items.now) }
    ensures exact { ZeroExactly capacity k (plan_of sizes.now bins.now) items.now result }
{
    let r = shelf::check_rows(sizes, bins, items, capacity, k);
    codes::plan_code(r)
}

// Repacks a closed shelf (`shelf::repack`).
#[unsafe(no_mangle)]
pub extern "C" fn shelf_repack(sizes: &[u32], answers: &mut [u16], capacity: u32, old: u32) -> u64
    ensures code { result ≡ repack_code (repack_result capacity sizes.now old (check_row capacity (length answers.old) sizes.now)) }
    ensures fits { RepackFits (repack_result capacity sizes.now old (check_row capacity (length answers.old) sizes.now)) }
    ensures answers { answers.new ≡ answers_at_exit capacity sizes.now (check_row capacity (length answers.old) sizes.now) answers.old }
    ensures promises { check_row capacity (length answers.old) sizes.now ≡ pass → RepackPromises capacity sizes.now }
{
    let r = shelf::repack(sizes, answers, capacity, old);
    codes::repack_code(r)
}

// Pairs two rows (`shelf::pair`).
#[unsafe(no_mangle)]
pub extern "C" fn shelf_pair(
    pictures: &[u32],
    sounds: &[u32],
    answers: &mut [u16],
    capacity: u32,
) -> u64
    ensures code { result ≡ pair_code (pair_result capacity pictures.now sounds.now (check_pair capacity (length answers.old) pictures.now sounds.now)) }
    ensures fits { PairFits (pair_result capacity pictures.now sounds.now (check_pair capacity (length answers.old) pictures.now sounds.now)) }
    ensures answers { answers.new ≡ places_at_exit capacity pictures.now sounds.now (check_pair capacity (length answers.old) pictures.now sounds.now) answers.old }
    ensures promises { PairPromises capacity pictures.now sounds.now }
{
    let r = shelf::pair(pictures, sounds, answers, capacity);
    codes::pair_code(r)
}
