// The aim of an item, by the engine's five trees: tree n, for n from 1 to 4, shows the bins of class n, and tree 0 those of class 1 that hold an A.
// Which tree is searched for an item, the class of the bins that a tree shows, and what is counted once an item is accepted or taken out.
#![tactic(auto)]

ghost use Rattle.std.specs.Prelude.{◌≡◌, ◌≤◌, ◌<◌};
ghost use Rattle.packing.specs.SizeClasses.{size_class, number_of};
ghost use Rattle.aim.specs.Aims.{home, b2_tree, trees_with, a_for, only_a, accepting, Acceptable, withdrawing};

use packing::PerClass;

// The bins opened, the B2 items accepted since the last m-th, and the items on the shelf; and the tree that is searched for the next B2, which follows
// from the phase and is kept so that no item has to ask for it. (Of one width, so that nothing lies between them, and too wide to be packed into one
// register: the compiler then keeps each in its own.)
#[derive(Clone, Copy)]
pub struct Counters {
    pub opened: u32,
    pub phase: u32,
    pub items: u32,
    pub b2: u32,
}

// The tree that is searched for the next B2: every m-th goes beside an A.
fn b2_tree_at(phase: u32, m: u8) -> u32
    requires { phase < m }
    ensures { result ≡ b2_tree phase m }
{
    let last = m as u32 - 1;
    if phase == last { 0 } else { 3 }
}

// The tree that is searched for an item: that of its class, with this one for a B2.
pub fn tree_for(size: u32, capacity: u32, b2: u32) -> usize
    ensures { result ≡ number_of (trees_with b2) (size_class capacity size) }
{
    let b2 = b2 as usize;
    let trees = PerClass {
        a: 1,
        b1: 2,
        b2,
        x: 4,
    };
    size_classes::classify(size, capacity, trees)
}

// The class of the bins that a tree shows.
pub fn home_of(tree: usize) -> usize
    ensures { result ≡ home tree }
{
    if tree == 0 { 1 } else { tree }
}

// What an item that is searched for in this tree adds to the A's of its bin: only an A is searched for in tree 1.
pub fn a_for(tree: usize) -> u32
    ensures { result ≡ a_for tree }
{
    if tree == 1 { 1 } else { 0 }
}

// The same by the item's size: 1 for an A, 0 for any other.
pub fn a_of(size: u32, capacity: u32) -> u32
    ensures { result ≡ number_of only_a (size_class capacity size) }
{
    let one = PerClass {
        a: 1,
        b1: 0,
        b2: 0,
        x: 0,
    };
    size_classes::classify(size, capacity, one) as u32
}

// The counters once an item is taken out: the bins opened and the phase are as they were.
pub fn withdraw(counters: Counters) -> Counters
    requires { 1 ≤ counters.items }
    ensures { result ≡ withdrawing counters }
{
    let items = counters.items - 1;
    Counters { items, ..counters }
}

// The counters once an item is accepted that was searched for in this tree, with so many bins opened then. A B2 counts, in whichever class it lies,
// and nothing else changes the phase, and with it the tree for the next.
pub fn accept(counters: Counters, tree: usize, opened: u32, m: u8) -> Counters
    requires { Acceptable tree m counters }
    ensures { result ≡ accepting tree opened m counters }
{
    let items = counters.items + 1;
    match tree {
        0 => {
            let b2 = b2_tree_at(0, m);
            Counters {
                opened,
                phase: 0,
                items,
                b2,
            }
        }
        3 => {
            let phase = counters.phase + 1;
            let b2 = b2_tree_at(phase, m);
            Counters {
                opened,
                phase,
                items,
                b2,
            }
        }
        _ => Counters {
            opened,
            items,
            ..counters
        },
    }
}
