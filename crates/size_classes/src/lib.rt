// "Size classes": the class of an item, as the number that the caller has for it.
#![tactic(auto)]

ghost use Rattle.std.specs.Prelude.{◌≡◌, if◌then◌else◌};
ghost use Rattle.packing.specs.Prelude.{◌<?◌};
ghost use Rattle.packing.specs.SizeClasses.{size_class, number_of};

use packing::PerClass;

// The one number where the size is above the limit, else the other.
fn above(limit: u32, size: u32, one: usize, other: usize) -> usize
    ensures { result ≡ (if limit <? size then one else other) }
{
    if limit < size { one } else { other }
}

// The number that stands for the size class of an item, for every 32-bit size and capacity. A size is above a part of the capacity exactly when
// it is above the whole units of that part, and these fit 32 bits. (Three choices and no branch: no processor foresees the class of the next item.)
pub fn classify(size: u32, capacity: u32, numbers: PerClass) -> usize
    ensures { result ≡ number_of numbers (size_class capacity size) }
{
    let half = capacity / 2;
    let fifths = 2 * (capacity / 5) + 2 * (capacity % 5) / 5;
    let third = capacity / 3;
    let large = above(half, size, numbers.a, numbers.b1);
    let middle = above(fifths, size, large, numbers.b2);
    above(third, size, middle, numbers.x)
}
