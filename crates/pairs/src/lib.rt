// Picture and sound together (document 02, point 11): Algorithm PM. Both rows are sorted, smallest first, each size with its place in its row, and walked once
// from both ends: the pictures from the smallest up, the sounds from the largest down.
#![tactic(auto)]

ghost use Rattle.std.specs.Prelude.{◌≡◌, ◌++◌, ◌%◌, ◌<◌, length, drop};
ghost use Rattle.packing.specs.Rows.{check_pair, SoundPair};
ghost use Rattle.matching.specs.Pairs.{sound_places, pair_count, pair_result, places_at_exit};
ghost use Rattle.pairs.specs.Walked.{Tried, Walkable, Walked};

use ordering::Order;
use packing::PairResult;
use sorting::ROWS;

// Pairs a picture and a sound, each a word of its row, if they fit together: the sound's place, from 1, goes to the picture's answer. It tells whether
// they do.
fn try_pair(picture: u64, sound: u64, answers: &mut [u16], capacity: u32) -> bool
    requires { picture % 4096 < length answers.old }
    ensures { Tried capacity picture sound answers.old result answers.new }
{
    let picture_size = picture / 4096 + 1;
    let sound_size = sound / 4096 + 1;
    let most = capacity as u64;
    if most < picture_size + sound_size {
        return false;
    }
    let at = (picture % 4096) as usize;
    let place = sound % 4096 + 1;
    answers[at] = place as u16;
    true
}

// Walks over the pictures from the front and the sounds from the back: each sound is paired with the next picture, or is too large for it and so for all that
// follow. It tells how many pairs there are.
fn walk(pictures: &[u64], sounds: &[u64], answers: &mut [u16], capacity: u32) -> usize
    requires { Walkable pictures.now answers.old }
    ensures { Walked capacity pictures.now sounds.now answers.old result answers.new }
{
    let mut paired: usize = 0;
    for &sound in sounds.iter().rev() {
        if paired == pictures.len() {
            return paired;
        }
        let picture = pictures[paired];
        if try_pair(picture, sound, answers, capacity) {
            paired += 1;
        }
    }
    paired
}

// The pairing of two rows that no check refuses.
fn fill(pictures: &[u32], sounds: &[u32], answers: &mut [u16], capacity: u32) -> usize
    requires { SoundPair capacity (length answers.old) pictures.now sounds.now }
    ensures count { result ≡ pair_count capacity pictures.now sounds.now }
    ensures answers { answers.new ≡ sound_places capacity pictures.now sounds.now ++ drop (length pictures.now) answers.old }
{
    let mut row = [0u64; ROWS];
    let mut rising = [0u64; ROWS];
    let mut falling = [0u64; ROWS];
    let order = Order::SmallestFirst;
    sorted_sizes::sort_sizes(pictures, &mut row, &mut rising, capacity, order);
    sorted_sizes::sort_sizes(sounds, &mut row, &mut falling, capacity, order);
    answers[..pictures.len()].fill(0);
    walk(
        &rising[..pictures.len()],
        &falling[..sounds.len()],
        answers,
        capacity,
    )
}

// "Picture and sound together": each picture's sound, by its place from 1, or 0 goes to the answers, and the number of pairs is returned. Nothing is written
// where a check refuses.
#[tactic(auto, using(packing::proofs::Rows::passed_pair))]
pub fn pair(pictures: &[u32], sounds: &[u32], answers: &mut [u16], capacity: u32) -> PairResult
    ensures result { result ≡ pair_result capacity pictures.now sounds.now (check_pair capacity (length answers.old) pictures.now sounds.now) }
    ensures answers { answers.new ≡ places_at_exit capacity pictures.now sounds.now (check_pair capacity (length answers.old) pictures.now sounds.now) answers.old }
{
    row_limits::check_pair(pictures, sounds, answers.len(), capacity)?;
    Ok(fill(pictures, sounds, answers, capacity))
}
