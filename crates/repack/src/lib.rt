// Repacking a closed shelf (document 02, point 10): First-Fit-Decreasing. The sizes of the row, sorted as words, each with its place in the row, go one
// after the other into the first bin with space, which a tournament tree over the bins' free space finds.
#![tactic(auto)]

ghost use Rattle.std.specs.Prelude.{◌≡◌, ◌++◌, length, drop};
ghost use Rattle.packing.specs.Rows.{check_row, SoundRow};
ghost use Rattle.decreasing.specs.Repack.{new_bins, new_count, repack_result, answers_at_exit};
ghost use Rattle.repack.specs.Shown.{Placeable, Places};
ghost use Rattle.repack.specs.Packed.{Packable, Packed};

use ordering::Order;
use packing::{RepackResult, Repacked};
use sorting::ROWS;
use tournament::{ROW_WORDS, Shape};

// Puts an item into the first bin with space, or into a new one, where so many are opened, and answers the bin's number.
fn place(tree: &mut [u32; ROW_WORDS], shape: Shape, count: usize, size: u32, capacity: u32) -> usize
    requires { Placeable capacity shape count size tree.old }
    ensures { Places capacity shape count size tree.old result tree.new }
{
    let searched = tournament::search(tree, 0, shape, size);
    let found = searched.found;
    match found {
        Some(place) => {
            let space = tournament::value(tree, 0, shape, place);
            let free = space - size;
            climb::renew(tree, 0, shape, place, free);
            place + 1
        }
        None => {
            let free = capacity - size;
            climb::raise(tree, 0, shape, count, free);
            count + 1
        }
    }
}

// Packs the items of the words, one after the other, into empty bins: each bin's number goes to the item's place among the answers, and the number of bins
// is answered.
fn pack(words: &[u64], answers: &mut [u16], capacity: u32) -> usize
    requires { Packable capacity words.now answers.old }
    ensures { Packed capacity words.now answers.old result answers.new }
{
    let shape = tournament::shape_of(words.len() as u16);
    let mut tree = [0u32; ROW_WORDS];
    let mut count: usize = 0;
    for &word in words {
        let at = (word % 4096) as usize;
        let less = (word / 4096) as u32;
        let size = capacity - less;
        let bin = place(&mut tree, shape, count, size, capacity);
        answers[at] = bin as u16;
        count = count.max(bin);
    }
    count
}

// The repacking of a row that no check refuses.
fn fill(sizes: &[u32], answers: &mut [u16], capacity: u32) -> usize
    requires { SoundRow capacity (length answers.old) sizes.now }
    ensures count { result ≡ new_count capacity sizes.now }
    ensures answers { answers.new ≡ new_bins capacity sizes.now ++ drop (length sizes.now) answers.old }
{
    let mut row = [0u64; ROWS];
    let mut sorted = [0u64; ROWS];
    sorted_sizes::sort_sizes(sizes, &mut row, &mut sorted, capacity, Order::LargestFirst);
    pack(&sorted[..sizes.len()], answers, capacity)
}

// "Repacking a closed shelf": each size's new bin goes to the answers, in the order of the row; the new count is returned, and whether it is not below the
// old one. Nothing is written where a check refuses.
#[tactic(auto, using(packing::proofs::Rows::passed_sound))]
pub fn repack(sizes: &[u32], answers: &mut [u16], capacity: u32, old: u32) -> RepackResult
    ensures result { result ≡ repack_result capacity sizes.now old (check_row capacity (length answers.old) sizes.now) }
    ensures answers { answers.new ≡ answers_at_exit capacity sizes.now (check_row capacity (length answers.old) sizes.now) answers.old }
{
    row_limits::check_row(sizes, answers.len(), capacity)?;
    let count = fill(sizes, answers, capacity);
    let saves_nothing = old as usize <= count;
    Ok(Repacked {
        count,
        saves_nothing,
    })
}
