// The index over the ledger: five tournament trees in one row of words. Tree n, for n from 1 to 4, shows the free space of the bins of class n; tree 0
// that of the bins of class 1 that hold an A.
#![tactic(auto)]

ghost use Rattle.std.specs.Prelude.{◌≡◌};
ghost use Rattle.ledger.specs.Offers.{offers};
ghost use Rattle.index.specs.Shown.{Showable, Freed, ShownBeside, Shown};

use ledger::Row;
use tournament::{ROW_WORDS, STRIDE, Shape};

// What a bin of class 1 offers beside an A: its free space, if it holds one.
fn beside_a(row: Row) -> u32
    requires { row.class ≡ 1 }
    ensures { result ≡ offers 0 row }
{
    if 0 < row.held_a { row.free } else { 0 }
}

// Shows in tree 0 what a row of the ledger offers beside an A, if that is of class 1, once the tree of its class shows its free space.
fn show_beside(trees: &mut [u32; ROW_WORDS], shape: Shape, place: usize, row: Row)
    requires { Showable shape trees.old place row }
    ensures { ShownBeside shape place row trees.old trees.new }
{
    if row.class == 1 {
        let beside = beside_a(row);
        climb::store(trees, 0, shape, place, beside);
    }
}

// Shows what a row of the ledger offers, at its place: in the tree of its class, and in tree 0 if that is class 1.
pub fn show(trees: &mut [u32; ROW_WORDS], shape: Shape, place: usize, row: Row)
    requires { Showable shape trees.old place row }
    ensures { Shown shape trees.old place row trees.new }
{
    let home = STRIDE * row.class as usize;
    let free = row.free;
    climb::store(trees, home, shape, place, free);
    show_beside(trees, shape, place, row);
}

// The same for a row whose bin an item has left: its free space has grown, so its place rises in the tree of its class.
pub fn show_freed(trees: &mut [u32; ROW_WORDS], shape: Shape, place: usize, row: Row)
    requires { Freed shape trees.old place row }
    ensures { Shown shape trees.old place row trees.new }
{
    let home = STRIDE * row.class as usize;
    let freed = row.free;
    climb::raise(trees, home, shape, place, freed);
    show_beside(trees, shape, place, row);
}
