// A record's links, by slot number. A slot out of range reads as 0 and takes no store. 0 is none, and no Option stands
// for it: the bytes of a pool have it so, and so does each model of them (specs/Node.antt).
#![tactic(auto, unfolding(crate::specs::Node::get_n, crate::specs::Node::put_n, crate::specs::Node::key_n, crate::specs::Node::put_both, crate::specs::Node::side_of, crate::specs::Node::side_n, crate::specs::Node::detach_n))]

ghost use Rattle.std.specs.Prelude.{◌≡◌, ◌+◌, ◌-◌, ◌*◌, if◌then◌else◌, nat_eq};
ghost use Rattle.fields.specs.Number.{get_le, put_le};
ghost use Rattle.avl.specs.Tree.{pick};
ghost use Rattle.tree.specs.Node.{way, child, parent, balance, get_n, put_n, key_n, node_n, put_both, side_n, detach_n};

use super::dir::Dir;
use fields::Number;
use format::{balance, link, record};

// A tree: its topmost record, 0 for none, and how many records it has.
#[derive(Clone, Copy, PartialEq, Eq, Default)]
pub struct AvlTree {
    pub root: u16,
    pub count: u16,
}

// What a search reads of a record: its key and its two children.
#[derive(Clone, Copy, PartialEq, Eq, Default)]
pub struct Node {
    pub key: u64,
    pub left: u16,
    pub right: u16,
}

impl Node {
    pub fn child(self, d: Dir) -> u16
        ensures { result ≡ pick (way d) self.left self.right }
    {
        match d {
            Dir::Left => self.left,
            Dir::Right => self.right,
        }
    }
}

// A number in a record, by its place there.
fn get_field<T: Number>(nodes: &[u8], s: u16, field: u8) -> T
    ensures { T.value result ≡ (if nat_eq s 0 then 0 else get_le T.WIDTH nodes.now (32 * (s - 1) + field)) }
{
    if s == 0 {
        return T::default();
    }
    fields::get(nodes, record::SIZE * (s as usize - 1) + field as usize)
}

fn set_field<T: Number>(nodes: &mut [u8], s: u16, field: u8, v: T)
    ensures { nodes.new ≡ (if nat_eq s 0 then nodes.old else put_le T.WIDTH nodes.old (32 * (s - 1) + field) (T.value v)) }
{
    if s != 0 {
        fields::put(nodes, record::SIZE * (s as usize - 1) + field as usize, v);
    }
}

pub fn get_child(nodes: &[u8], s: u16, d: Dir) -> u16
    ensures { result ≡ get_n nodes.now s (child (way d)) }
{
    get_field(nodes, s, d.field())
}

pub fn set_child(nodes: &mut [u8], s: u16, d: Dir, c: u16)
    ensures { nodes.new ≡ put_n nodes.old s (child (way d)) c }
{
    set_field(nodes, s, d.field(), c);
}

pub fn get_parent(nodes: &[u8], s: u16) -> u16
    ensures { result ≡ get_n nodes.now s parent }
{
    get_field(nodes, s, link::PARENT)
}

// The direction is not stored: `parent_direction` works it out.
pub fn set_parent(nodes: &mut [u8], s: u16, p: u16, _parent_dir: Dir)
    ensures { nodes.new ≡ put_n nodes.old s parent p }
{
    set_field(nodes, s, link::PARENT, p);
}

pub fn get_balance(nodes: &[u8], s: u16) -> u8
    ensures { result ≡ get_n nodes.now s balance }
{
    get_field(nodes, s, record::BALANCE as u8)
}

pub fn set_balance(nodes: &mut [u8], s: u16, b: u8)
    ensures { nodes.new ≡ put_n nodes.old s balance b }
{
    set_field(nodes, s, record::BALANCE as u8, b);
}

pub fn get_key(nodes: &[u8], s: u16) -> u64
    ensures { result ≡ key_n nodes.now s }
{
    get_field(nodes, s, record::KEY as u8)
}

// The record that stands after so many others.
#[inline(always)]
fn node_after(nodes: &[u8], others: u16) -> Node
    ensures { result ≡ record { key = get_le 8 nodes.now (32 * others); left = get_le 2 nodes.now (32 * others + 8); right = get_le 2 nodes.now (32 * others + 10) } }
{
    let start = record::SIZE * (others as usize);
    Node {
        key: fields::get::<u64>(nodes, start + record::KEY),
        left: fields::get::<u16>(nodes, start + record::LEFT),
        right: fields::get::<u16>(nodes, start + record::RIGHT),
    }
}

// One test for the whole record where the slice has it: the loads then need none, and none of them waits for
// another.
pub fn node_at(nodes: &[u8], s: u16) -> Node
    ensures { result ≡ node_n nodes.now s }
{
    if s == 0 {
        return Node::default();
    }
    let end = record::SIZE * (s as usize);
    if nodes.len() < end {
        return node_after(nodes, s - 1);
    }
    node_after(&nodes[end - record::SIZE..end], 0)
}

// The child and its parent. No test for none: there is nothing to store at slot 0.
pub fn set_child2(nodes: &mut [u8], s: u16, d: Dir, c: u16)
    ensures { nodes.new ≡ put_both nodes.old s (way d) c }
{
    set_parent(nodes, c, s, d);
    set_child(nodes, s, d, c);
}

// The side on which x hangs below its parent p; left below none.
pub fn parent_direction(nodes: &[u8], p: u16, x: u16) -> Dir
    ensures { way result ≡ side_n nodes.now p x }
{
    if p != 0 && x == get_child(nodes, p, Dir::Right) {
        return Dir::Right;
    }
    Dir::Left
}

// A record that is in no tree.
pub fn detach(nodes: &mut [u8], x: u16)
    ensures { nodes.new ≡ detach_n nodes.old x }
{
    set_child(nodes, x, Dir::Left, 0);
    set_child(nodes, x, Dir::Right, 0);
    set_parent(nodes, x, 0, Dir::Left);
    set_balance(nodes, x, balance::EVEN);
}
