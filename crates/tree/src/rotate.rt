// Rotations. A rotation mends a record x whose side d has become two higher than its other side z: a record from
// that side takes the place of x, x goes down on the other side, and the order of all records stays. Which of the
// two it is goes by c, the child of x on side d. Drawn for the left side; the right one is the mirror image.
//
//   single: c is higher on side d, or even            double: c is higher on the other side
//
//          x                c                               x                   g
//         / \              / \                             / \                /   \
//        c   z     ->     a   x                           c   z      ->      c     x
//       / \                  / \                         / \               / \   / \
//      a   w                w   z                       a   g             a   u v   z
//                                                          / \
//                                                         u   v
//
//   c was      x is then      c is then               g was           c is then    x is then     g is then
//   on side d  even           even                    even            even         even          even
//   even       on side d      on the other side       on side d       even         other side    even
//                                                     other side      on side d    even          even
//
// After a single rotation over an even c the part is as high as before, and a climb stops there; it can be met
// in a removal alone. After every other the part is one lower than it had become.
#![tactic(auto, unfolding(crate::specs::Rotate::rooted, crate::specs::Rotate::point_n, crate::specs::Rotate::hang_n, crate::specs::Rotate::single_n, crate::specs::Rotate::double_n, crate::specs::Rotate::xor, crate::specs::Rotate::rotate_n, crate::specs::Rotate::rotated_to))]

ghost use Rattle.std.specs.Prelude.{◌≡◌};
ghost use Rattle.tree.specs.Node.{way};
ghost use Rattle.tree.specs.Climb.{turned};
ghost use Rattle.tree.specs.Rotate.{point_n, hang_n, single_n, double_n, rotate_n};

use super::climb::Step;
use super::dir::Dir;
use super::node::{
    AvlTree, get_balance, get_child, set_balance, set_child, set_child2, set_parent,
};
use super::spot::Spot;
use format::balance;

// The field that points at a place: a child of its record, or the root where it is below none.
pub fn point(nodes: &mut [u8], t: AvlTree, x: u16, at: Spot) -> AvlTree
    ensures { (nodes.new, result) ≡ point_n nodes.old t x at.parent (way at.side) }
{
    if at.parent == 0 {
        return AvlTree { root: x, ..t };
    }
    set_child(nodes, at.parent, at.side, x);
    t
}

// x hung where a part was.
pub fn hang(nodes: &mut [u8], t: AvlTree, x: u16, at: Spot) -> AvlTree
    ensures { (nodes.new, result) ≡ hang_n nodes.old t x at.parent (way at.side) }
{
    set_parent(nodes, x, at.parent, at.side);
    point(nodes, t, x, at)
}

fn single(nodes: &mut [u8], t: AvlTree, x: u16, d: Dir, at: Spot, c: u16, b: u8) -> AvlTree
    ensures { (nodes.new, result) ≡ single_n nodes.old t x (way d) at.parent (way at.side) c b }
{
    let inv = d.reverse();
    let dir_bal = d.to_balance();
    let inv_bal = inv.to_balance();
    let w = get_child(nodes, c, inv);
    let c_bal = if b == dir_bal { balance::EVEN } else { inv_bal };
    set_balance(nodes, x, b ^ dir_bal);
    set_balance(nodes, c, c_bal);
    set_child2(nodes, c, inv, x);
    set_child2(nodes, x, d, w);
    hang(nodes, t, c, at)
}

fn double(nodes: &mut [u8], t: AvlTree, x: u16, d: Dir, at: Spot, c: u16, g: u16) -> AvlTree
    ensures { (nodes.new, result) ≡ double_n nodes.old t x (way d) at.parent (way at.side) c g }
{
    let inv = d.reverse();
    let dir_bal = d.to_balance();
    let inv_bal = inv.to_balance();
    let g_left = get_child(nodes, g, d);
    let g_right = get_child(nodes, g, inv);
    let g_bal = get_balance(nodes, g);
    let x_bal = if g_bal == dir_bal {
        inv_bal
    } else {
        balance::EVEN
    };
    let c_bal = if g_bal == inv_bal {
        dir_bal
    } else {
        balance::EVEN
    };
    set_child2(nodes, x, d, g_right);
    set_balance(nodes, x, x_bal);
    set_child2(nodes, c, inv, g_left);
    set_balance(nodes, c, c_bal);
    set_balance(nodes, g, balance::EVEN);
    set_child2(nodes, g, d, c);
    set_child2(nodes, g, inv, x);
    hang(nodes, t, g, at)
}

// The record x is two higher on side d, and hangs at a place. The climb is done if the height is as it was, or if
// that place is the root.
pub fn rotate(nodes: &mut [u8], t: AvlTree, x: u16, d: Dir, at: Spot) -> Step
    ensures { (nodes.new, result) ≡ turned (rotate_n nodes.old t x (way d) at.parent (way at.side)) at }
{
    let inv = d.reverse();
    let c = get_child(nodes, x, d);
    let b = get_balance(nodes, c);
    if b == inv.to_balance() {
        let g = get_child(nodes, c, inv);
        let tree = double(nodes, t, x, d, at, c, g);
        return Step::to(tree, at);
    }
    let tree = single(nodes, t, x, d, at, c, b);
    if b == d.to_balance() {
        return Step::to(tree, at);
    }
    Step::Done(tree)
}
