// Walks over links. The height of a tree is the limit of every loop. A slot is 0 for none, as node.rt says why.
#![tactic(auto, unfolding(crate::specs::Walk::walk_n))]

ghost use Rattle.std.specs.Prelude.{◌≡◌};
ghost use Rattle.avl.specs.Tree.{left, right};
ghost use Rattle.tree.specs.Node.{way};
ghost use Rattle.tree.specs.Walk.{levels, bottom_n, up_n, walk_n};

use super::dir::Dir;
use super::node::{AvlTree, get_child};
use super::spot::Spot;
use format::limit;

// The last record on side d, from s on.
#[tactic(auto, using(crate::proofs::Loops::one_more), unfolding(crate::specs::Walk::bottom_n))]
pub fn bottom_child(nodes: &[u8], s: u16, d: Dir) -> u16
    ensures { result ≡ bottom_n levels nodes.now s (way d) }
{
    let mut at = s;
    for _level in 0..limit::LEVELS {
        let c = get_child(nodes, at, d);
        if c == 0 {
            return at;
        }
        at = c;
    }
    at
}

// The first record from a place up that lies in the direction d.
#[tactic(auto, using(crate::proofs::Loops::one_more, crate::proofs::Loops::none_left), unfolding(crate::specs::Walk::up_n))]
fn upwards(nodes: &[u8], from: Spot, d: Dir) -> u16
    ensures { result ≡ up_n levels nodes.now from.parent (way from.side) (way d) }
{
    let mut at = from;
    for _level in 0..limit::LEVELS {
        if at.parent == 0 {
            return 0;
        }
        if at.side != d {
            return at.parent;
        }
        at = Spot::of(nodes, at.parent);
    }
    0
}

// The neighbour of s in the direction d, 0 for none.
pub fn walk_dir(nodes: &[u8], s: u16, d: Dir) -> u16
    ensures { result ≡ walk_n levels nodes.now s (way d) }
{
    let c = get_child(nodes, s, d);
    if c == 0 {
        return upwards(nodes, Spot::of(nodes, s), d);
    }
    bottom_child(nodes, c, d.reverse())
}

pub fn first(nodes: &[u8], t: AvlTree) -> u16
    ensures { result ≡ bottom_n levels nodes.now t.root left }
{
    bottom_child(nodes, t.root, Dir::Left)
}

pub fn last(nodes: &[u8], t: AvlTree) -> u16
    ensures { result ≡ bottom_n levels nodes.now t.root right }
{
    bottom_child(nodes, t.root, Dir::Right)
}
