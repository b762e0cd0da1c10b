// A place of a tournament tree is set: the climb from its leaf towards the root that makes every node hold the larger of its children again.
#![tactic(auto)]

ghost use Rattle.std.specs.Prelude.{◌≡◌, ◌≤◌, ◌<◌, get_or};
ghost use Rattle.tournament.specs.Trees.{leaves, sibling, Tree};
ghost use Rattle.climb.specs.Stored.{Stored};

use tournament::{ROW_WORDS, Shape};

// The other child of the parent of node `n`: the two differ in the lowest digit.
fn sibling_of(n: usize) -> usize
    ensures { result ≡ sibling n }
{
    n ^ 1
}

// Sets a place to a value not below what it holds: the maxima above it rise to that value, as far as they are below it.
pub fn raise(t: &mut [u32; ROW_WORDS], base: usize, shape: Shape, place: usize, value: u32)
    requires tree { Tree base shape t.old }
    requires inside { place < shape.places }
    requires rises { get_or (leaves t.old base shape.places) place 0 ≤ value }
    ensures { Stored base shape t.old place value t.new }
{
    let places = shape.places;
    let leaf = places + place;
    let mut n = leaf;
    t[base + n] = value;
    while 1 < n {
        n = n / 2;
        if value <= t[base + n] {
            return;
        }
        t[base + n] = value;
    }
}

// Sets a place, and carries the new maximum upward as far as it changes anything.
pub fn renew(t: &mut [u32; ROW_WORDS], base: usize, shape: Shape, place: usize, value: u32)
    requires tree { Tree base shape t.old }
    requires inside { place < shape.places }
    ensures { Stored base shape t.old place value t.new }
{
    let places = shape.places;
    let mut n = places + place;
    let mut largest = value;
    t[base + n] = largest;
    while 1 < n {
        let sibling = sibling_of(n);
        largest = largest.max(t[base + sibling]);
        n = n / 2;
        if t[base + n] == largest {
            return;
        }
        t[base + n] = largest;
    }
}

// Sets a place. A value that rises, as that of a bin just opened, needs no look at the siblings above it.
pub fn store(t: &mut [u32; ROW_WORDS], base: usize, shape: Shape, place: usize, value: u32)
    requires tree { Tree base shape t.old }
    requires inside { place < shape.places }
    ensures { Stored base shape t.old place value t.new }
{
    let held = tournament::value(t, base, shape, place);
    if held <= value {
        raise(t, base, shape, place, value);
    } else {
        renew(t, base, shape, place, value);
    }
}
