// The search, and the looks that it takes: "a look is a reading of one node's largest free space while searching". Each is counted where it is taken, by
// `look`, which alone reads a node here. The figure is this module's own, so looks are had of a search and in no other way: who hands them on cannot work
// them out from the height.
ghost use Rattle.std.specs.Prelude.{◌≡◌, cond, ◌+◌, ◌*◌, ◌≤◌, ◌<◌, max, leb};
ghost use Rattle.tournament.specs.Trees.{leaves, Tree};
ghost use Rattle.tournament.specs.LowestFit.{lowest_fit};
ghost use Rattle.tournament.specs.Descent.{Descent};
ghost use Rattle.tournament.specs.Looking.{looks_of, Looked, Descended, Finds};

use crate::{ROW_WORDS, Shape};

// How many looks were taken.
#[derive(Clone, Copy)]
pub struct Looks {
    count: u32,
}

impl Looks {
    // The looks where there was no search.
    pub const NONE: Looks = Looks { count: 0 };

    // The larger of two figures. (A method of its own, as `Ord::max` promises `ord_max` of a derived order, and nothing of the counts.)
    pub fn larger(self, other: Looks) -> Looks
        ensures { result.count ≡ max self.count other.count }
    {
        let count = self.count.max(other.count);
        Looks { count }
    }

    // The figure.
    pub fn count(self) -> u32
        ensures { result ≡ self.count }
    {
        self.count
    }
}

// What a search reports: what it has found, and the looks that it took.
#[derive(Clone, Copy)]
pub struct Searched {
    pub found: Option<usize>,
    pub looks: Looks,
}

// A look at the node whose word of the row this is.
fn look(t: &[u32; ROW_WORDS], word: usize, taken: &mut u32) -> u32
    requires inside { word < 8192 }
    requires few { taken.old < 4294967295 }
    ensures { Looked t.now word taken.old result taken.new }
{
    *taken = *taken + 1;
    t[word]
}

// The near node where its largest value is enough, else the far one.
fn nearest(need: u32, largest: u32, near: usize, far: usize) -> usize
    ensures { result ≡ cond (leb need largest) near far }
{
    if need <= largest { near } else { far }
}

// The lowest leaf below node `n` that holds `need` or more, where `n` stands `height` levels above the leaves and holds as much itself. Each
// level takes one look, at the left child, which is word `word` of the row: if that is too small, the right child holds what `n` holds. (The word
// to look at next goes down beside its node: so the compiler branches at each look, and the processor runs ahead of them.)
fn descend(
    t: &[u32; ROW_WORDS],
    base: usize,
    n: usize,
    word: usize,
    height: usize,
    need: u32,
    taken: &mut u32,
) -> usize
    requires descent { Descent t.now base n height need }
    requires word { word ≡ base + 2 * n }
    requires few { taken.old + height ≤ 4294967295 }
    ensures { Descended t.now base n height need taken.old result taken.new }
{
    if height == 0 {
        return n;
    }
    let left = 2 * n;
    let right = left + 1;
    let below_left = base + 2 * left;
    let below_right = base + 2 * right;
    let largest = look(t, word, taken);
    let child = nearest(need, largest, left, right);
    let next = nearest(need, largest, below_left, below_right);
    descend(t, base, child, next, height - 1, need, taken)
}

// The lowest place that holds `need` or more: one look at the root, then, while it fits, one a level.
fn find(
    t: &[u32; ROW_WORDS],
    base: usize,
    shape: Shape,
    need: u32,
    taken: &mut u32,
) -> Option<usize>
    requires tree { Tree base shape t.now }
    requires none { taken.old ≡ 0 }
    ensures { Finds t.now base shape need result taken.new }
{
    let places = shape.places;
    let height = shape.height;
    let root = base + 1;
    let largest = look(t, root, taken);
    if largest < need {
        return None;
    }
    let word = base + 2;
    let leaf = descend(t, base, 1, word, height, need, taken);
    let place = leaf - places;
    Some(place)
}

// The lowest place that holds `need` or more, and the looks that it took to find it. A need of 0 is never searched for: a place without space would meet
// it.
pub fn search(t: &[u32; ROW_WORDS], base: usize, shape: Shape, need: u32) -> Searched
    requires tree { Tree base shape t.now }
    requires some { 1 ≤ need }
    ensures found { result.found ≡ lowest_fit need (leaves t.now base shape.places) }
    ensures looks { result.looks.count ≡ looks_of shape.height result.found }
{
    let mut taken: u32 = 0;
    let found = find(t, base, shape, need, &mut taken);
    let looks = Looks { count: taken };
    Searched { found, looks }
}
