// What the calls over rows of sizes test before they write anything: refusals 11, 12, 13 and 22 of document 02, points 10 and 11, in this order.
#![tactic(auto)]

ghost use Rattle.std.specs.Prelude.{◌≡◌, ◌+◌, ◌≤◌, length};
ghost use Rattle.packing.specs.Rows.{check_limits, check_sizes, check_words, check_row, check_pair};

use limits::{MOST_CAPACITY, MOST_ROWS};
use packing::{Refusal, RowReason, RowResult};

// 13, at the first size that is 0 or above the capacity, where the first of these has place `first`.
#[tactic(auto, using(crate::proofs::Walked::at_end, crate::proofs::Walked::bad_here, crate::proofs::Walked::good_here))]
fn check_sizes(sizes: &[u32], capacity: u32, first: usize) -> RowResult
    requires { first + length sizes.now ≤ 16384 }
    ensures { result ≡ check_sizes capacity first sizes.now }
{
    for (i, size) in sizes.iter().enumerate() {
        if !limits::is_within(1, capacity, *size) {
            return Err(Refusal {
                reason: RowReason::SizeOutside,
                place: first + i,
            });
        }
    }
    Ok(())
}

// 11, and 12 where the longest row has so many sizes.
#[tactic(auto, unfolding(packing::specs::Rows::check_limits))]
fn check_limits(capacity: u32, longest: usize) -> RowResult
    ensures { result ≡ check_limits capacity longest }
{
    if !limits::is_within(1, MOST_CAPACITY, capacity) {
        return Err(Refusal {
            reason: RowReason::CapacityOutside,
            place: 0,
        });
    }
    if MOST_ROWS < longest {
        return Err(Refusal {
            reason: RowReason::TooLong,
            place: 0,
        });
    }
    Ok(())
}

// 22, where so many answer words are needed, and so many are lent.
fn check_words(needed: usize, words: usize) -> RowResult
    ensures { result ≡ check_words needed words }
{
    if words < needed {
        return Err(Refusal {
            reason: RowReason::TooFewWords,
            place: 0,
        });
    }
    Ok(())
}

// All four, where so many answer words are lent.
#[tactic(auto, using(packing::proofs::Rows::rows_few))]
pub fn check_row(sizes: &[u32], words: usize, capacity: u32) -> RowResult
    ensures { result ≡ check_row capacity words sizes.now }
{
    check_limits(capacity, sizes.len())?;
    check_sizes(sizes, capacity, 1)?;
    check_words(sizes.len(), words)
}

// All four of two rows to pair: the sounds' places count on after the last picture, and a word is needed for each picture.
#[tactic(auto, using(packing::proofs::Rows::rows_few, packing::proofs::Rows::check_both))]
pub fn check_pair(pictures: &[u32], sounds: &[u32], words: usize, capacity: u32) -> RowResult
    ensures { result ≡ check_pair capacity words pictures.now sounds.now }
{
    let longest = pictures.len().max(sounds.len());
    check_limits(capacity, longest)?;
    check_sizes(pictures, capacity, 1)?;
    check_sizes(sounds, capacity, 1 + pictures.len())?;
    check_words(pictures.len(), words)
}
