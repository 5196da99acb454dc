// Insertion.
#![tactic(auto, unfolding(crate::specs::Insert::grow_n, crate::specs::Insert::more_n, crate::specs::Insert::beside_n))]

ghost use Rattle.std.specs.Prelude.{◌≡◌};
ghost use Rattle.tree.specs.Node.{way};
ghost use Rattle.tree.specs.Walk.{levels};
ghost use Rattle.tree.specs.Insert.{grow_n, grow_still, more_n, link_n, insert_n, beside_n, insert_here_n};

use super::climb::{Step, Turn, climb};
use super::dir::Dir;
use super::node::{
    AvlTree, get_balance, get_child, get_parent, parent_direction, set_balance, set_child2,
};
use super::rotate::rotate;
use super::spot::Spot;
use super::walk::bottom_child;
use format::balance;

// The climb after an insertion: the side has become one higher.
struct Grown;

impl Turn for Grown {
    ghost climbed = { grow_n };

    ghost still = { grow_still };

    fn turn(nodes: &mut [u8], tree: AvlTree, at: Spot) -> Step {
        let x = at.parent;
        let d = at.side;
        let b = get_balance(nodes, x);
        let p = get_parent(nodes, x);
        let heavy = d.to_balance();
        if b == balance::EVEN {
            set_balance(nodes, x, heavy);
            return Step::up(nodes, tree, x, p);
        }
        if b == heavy {
            let side = parent_direction(nodes, p, x);
            let turned = rotate(nodes, tree, x, d, Spot { parent: p, side });
            return Step::Done(turned.tree());
        }
        set_balance(nodes, x, balance::EVEN);
        Step::Done(tree)
    }
}

// A count one higher, within two bytes: the Rust's `+= 1`, kept by name since pages promise it.
pub fn more(c: u16) -> u16
    ensures { result ≡ more_n c }
{
    c.saturating_add(1)
}

// x hung at an empty place, or made the root where it is below none, and the climb.
#[tactic(auto, unfolding(crate::specs::Insert::link_n, crate::specs::Rotate::rooted))]
fn link(nodes: &mut [u8], t: AvlTree, x: u16, at: Spot) -> AvlTree
    ensures { (nodes.new, result) ≡ link_n levels nodes.old t x at.parent (way at.side) }
{
    if at.parent == 0 {
        return AvlTree { root: x, ..t };
    }
    set_child2(nodes, at.parent, at.side, x);
    climb::<Grown>(nodes, t, at)
}

// The record x at an empty place.
#[tactic(auto, unfolding(crate::specs::Insert::insert_n, crate::specs::Insert::counted))]
pub fn insert(nodes: &mut [u8], t: AvlTree, x: u16, at: Spot) -> AvlTree
    ensures { (nodes.new, result) ≡ insert_n levels nodes.old t x at.parent (way at.side) }
{
    let u = link(nodes, t, x, at);
    AvlTree {
        count: more(u.count),
        ..u
    }
}

// The empty place beside the record here, on side d of it; below no record where here is 0.
pub fn beside(nodes: &[u8], here: u16, d: Dir) -> Spot
    ensures { (result.parent, way result.side) ≡ beside_n levels nodes.now here (way d) }
{
    let c = get_child(nodes, here, d);
    if c == 0 {
        return Spot {
            parent: here,
            side: d,
        };
    }
    let inv = d.reverse();
    Spot {
        parent: bottom_child(nodes, c, inv),
        side: inv,
    }
}

// The record x beside the record here, on side d of it.
#[tactic(auto, unfolding(crate::specs::Insert::insert_here_n))]
pub fn insert_here(nodes: &mut [u8], t: AvlTree, x: u16, here: u16, d: Dir) -> AvlTree
    ensures { (nodes.new, result) ≡ insert_here_n levels nodes.old t x here (way d) }
{
    let at = beside(nodes, here, d);
    insert(nodes, t, x, at)
}
