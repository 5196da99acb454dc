// Removal.
#![tactic(auto, unfolding(crate::specs::Remove::shrink_n, crate::specs::Remove::less_n, crate::specs::Remove::replace_n))]

ghost use Rattle.std.specs.Prelude.{◌≡◌};
ghost use Rattle.tree.specs.Node.{way};
ghost use Rattle.tree.specs.Walk.{levels};
ghost use Rattle.tree.specs.Remove.{shrink_n, shrink_still, remove1_n, replace_n, remove2_n, unlink_n, remove_n, less_n};

use super::climb::{Step, Turn, climb};
use super::dir::Dir;
use super::node::{
    AvlTree, detach, get_balance, get_child, get_parent, parent_direction, set_balance, set_child,
    set_parent,
};
use super::rotate::{hang, point, rotate};
use super::spot::Spot;
use super::walk::bottom_child;
use format::balance;

// The climb after a removal: the side has become one lower.
struct Shrunk;

impl Turn for Shrunk {
    ghost climbed = { shrink_n };

    ghost still = { shrink_still };

    fn turn(nodes: &mut [u8], tree: AvlTree, at: Spot) -> Step {
        let x = at.parent;
        let b = get_balance(nodes, x);
        let p = get_parent(nodes, x);
        let inv = at.side.reverse();
        let heavy = inv.to_balance();
        if b == heavy {
            let side = parent_direction(nodes, p, x);
            return rotate(nodes, tree, x, inv, Spot { parent: p, side });
        }
        if b == balance::EVEN {
            set_balance(nodes, x, heavy);
            return Step::Done(tree);
        }
        set_balance(nodes, x, balance::EVEN);
        Step::up(nodes, tree, x, p)
    }
}

// x, which hangs at a place, has at most the child w.
#[tactic(auto, unfolding(crate::specs::Remove::remove1_n))]
fn remove1(nodes: &mut [u8], t: AvlTree, x: u16, at: Spot, w: u16) -> AvlTree
    ensures { (nodes.new, result) ≡ remove1_n levels nodes.old t x at.parent (way at.side) w }
{
    let u = hang(nodes, t, w, at);
    detach(nodes, x);
    if at.parent == 0 {
        return u;
    }
    climb::<Shrunk>(nodes, u, at)
}

// n takes the place and the balance b of x, whose child on side d is still below it.
fn replace(nodes: &mut [u8], t: AvlTree, n: u16, x: u16, d: Dir, at: Spot, b: u8) -> AvlTree
    ensures { (nodes.new, result) ≡ replace_n nodes.old t n x (way d) at.parent (way at.side) b }
{
    let inv = d.reverse();
    let c = get_child(nodes, x, d);
    let o = get_child(nodes, x, inv);
    set_child(nodes, n, d, c);
    set_child(nodes, n, inv, o);
    set_parent(nodes, n, at.parent, at.side);
    set_balance(nodes, n, b);
    set_parent(nodes, c, n, d);
    set_parent(nodes, o, n, inv);
    point(nodes, t, n, at)
}

// x has two children: its neighbour n, the successor only if the right side is higher, is taken out
// and takes the place of x.
#[tactic(auto, unfolding(crate::specs::Remove::remove2_n))]
fn remove2(nodes: &mut [u8], t: AvlTree, x: u16, at: Spot) -> AvlTree
    ensures { (nodes.new, result) ≡ remove2_n levels nodes.old t x at.parent (way at.side) }
{
    let b = get_balance(nodes, x);
    let d = if b == balance::RIGHT {
        Dir::Right
    } else {
        Dir::Left
    };
    let inv = d.reverse();
    let c = get_child(nodes, x, d);
    let n = bottom_child(nodes, c, inv);
    let below = Spot::of(nodes, n);
    let w = get_child(nodes, n, d);
    let u = hang(nodes, t, w, below);
    let v = replace(nodes, u, n, x, d, at, b);
    detach(nodes, x);
    let parent = if below.parent == x { n } else { below.parent };
    climb::<Shrunk>(nodes, v, Spot { parent, ..below })
}

#[tactic(auto, unfolding(crate::specs::Remove::unlink_n))]
fn unlink(nodes: &mut [u8], t: AvlTree, x: u16) -> AvlTree
    ensures { (nodes.new, result) ≡ unlink_n levels nodes.old t x }
{
    let l = get_child(nodes, x, Dir::Left);
    let r = get_child(nodes, x, Dir::Right);
    let at = Spot::of(nodes, x);
    if l == 0 {
        return remove1(nodes, t, x, at, r);
    }
    if r == 0 {
        return remove1(nodes, t, x, at, l);
    }
    remove2(nodes, t, x, at)
}

// A count one lower, not below 0: the Rust's `-= 1`, kept by name since pages promise it.
pub fn less(c: u16) -> u16
    ensures { result ≡ less_n c }
{
    c.saturating_sub(1)
}

// The record x out of its tree, its links cleared.
#[tactic(auto, unfolding(crate::specs::Remove::remove_n))]
pub fn remove(nodes: &mut [u8], t: AvlTree, x: u16) -> AvlTree
    ensures { (nodes.new, result) ≡ remove_n levels nodes.old t x }
{
    let u = unlink(nodes, t, x);
    AvlTree {
        count: less(u.count),
        ..u
    }
}
