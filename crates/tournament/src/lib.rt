// Tournament trees in one row of words. A tree stands at a base: word base + 1 is its root, node n has the children 2n and 2n + 1, and its
// leaves, one a place, are the nodes from the number of its places up. Each node holds the larger of its two children.
#![tactic(auto)]

pub mod looks;

ghost use Rattle.std.specs.Prelude.{◌≡◌, ◌≤◌, ◌<◌, get_or};
ghost use Rattle.tournament.specs.Shapes.{Fitted};
ghost use Rattle.tournament.specs.Trees.{leaves, Tree};

pub use crate::looks::search;

// How far apart the trees of a store stand in the row: as many words as a tree of 512 places takes.
pub const STRIDE: usize = 1024;

// A row has room for the five trees of a store, or for one tree of 4,096 places.
pub const ROW_WORDS: usize = 8 * STRIDE;

// How many places a tree has, and how far its root stands above them: the places are 2 to the power of the height.
#[derive(Clone, Copy)]
pub struct Shape {
    pub places: usize,
    pub height: usize,
}

// The least power of two not below a number of bins, and its height.
pub fn shape_of(bins: u16) -> Shape
    requires { bins ≤ 4096 }
    ensures { Fitted bins result }
{
    let places = (bins as usize).next_power_of_two();
    let height = places.ilog2() as usize;
    Shape { places, height }
}

// What a place holds.
pub fn value(t: &[u32; ROW_WORDS], base: usize, shape: Shape, place: usize) -> u32
    requires tree { Tree base shape t.now }
    requires inside { place < shape.places }
    ensures { result ≡ get_or (leaves t.now base shape.places) place 0 }
{
    let leaf = shape.places + place;
    t[base + leaf]
}
