// The header's numbers and the tree table, by value.
ghost use Rattle.std.specs.Prelude.{◌≡◌};
ghost use Rattle.slots.specs.Head.{entry_n, load_n, put_entry_n, store_n, tree_n, set_tree_n};

use format::{entry, header, limit};
use std::array;
use tree::node::AvlTree;

// The header's numbers. Its fields fill it, so that a copy moves no padding.
#[derive(Clone, Copy)]
pub struct Numbers {
    // N and T
    pub slots: u16,
    pub trees: u16,
    // the number of live records, and the lowest free slot, 0 for none, as `free_slot` of `meaning` gives it
    pub live: u16,
    pub free: u16,
    // X, and how much of the text is used
    pub size: u32,
    pub used: u32,
    // the next stamp
    pub next: u32,
}

#[derive(Clone, Copy)]
pub struct Head {
    pub numbers: Numbers,
    // the trees, from tree 1 on; an empty one beyond T
    pub table: [AvlTree; 8],
}

// The entry of tree i + 1, empty beyond t.
#[tactic(auto, unfolding(crate::specs::Head::entry_n))]
fn entry_at(pool: &[u8], t: u16, i: u16) -> AvlTree
    ensures { result ≡ entry_n pool.now t i }
{
    if t <= i {
        return AvlTree::default();
    }
    let at = header::SIZE + entry::SIZE * (i as usize);
    AvlTree {
        root: fields::get::<u16>(pool, at + entry::ROOT),
        count: fields::get::<u16>(pool, at + entry::COUNT),
    }
}

// The head of a pool, of which the number of live records and the lowest free slot are known.
pub fn load(pool: &[u8], live: u16, free: u16) -> Head
    ensures { result ≡ load_n pool.now live free }
{
    let trees = fields::get::<u16>(pool, header::TREES);
    let numbers = Numbers {
        slots: fields::get::<u16>(pool, header::SLOTS),
        trees,
        live,
        free,
        size: fields::get::<u32>(pool, header::TEXT_SIZE),
        used: fields::get::<u32>(pool, header::TEXT_USED),
        next: fields::get::<u32>(pool, header::NEXT_STAMP),
    };
    Head {
        numbers,
        table: array::from_fn(|i| entry_at(pool, trees, i as u16)),
    }
}

// Stores the entry of tree i + 1, if there is one.
#[tactic(auto, unfolding(crate::specs::Head::put_entry_n))]
fn put_entry(pool: &mut [u8], t: u16, i: u16, v: AvlTree)
    ensures { pool.new ≡ put_entry_n pool.old t i v }
{
    if t <= i {
        return;
    }
    let at = header::SIZE + entry::SIZE * (i as usize);
    fields::put::<u16>(pool, at + entry::ROOT, v.root);
    fields::put::<u16>(pool, at + entry::COUNT, v.count);
}

// Stores what a batch may change of the header, and the tree table.
pub fn store(pool: &mut [u8], h: Head)
    ensures { pool.new ≡ store_n pool.old h }
{
    let n = h.numbers;
    fields::put::<u16>(pool, header::LIVE, n.live);
    fields::put::<u32>(pool, header::TEXT_USED, n.used);
    fields::put::<u32>(pool, header::NEXT_STAMP, n.next);
    for (i, t) in h.table.iter().enumerate() {
        put_entry(pool, n.trees, i as u16, *t);
    }
}

// Tree t of the table; an empty one for a number that is no tree's.
#[tactic(auto, unfolding(crate::specs::Head::tree_n))]
pub fn tree_in(table: &[AvlTree; 8], t: u8) -> AvlTree
    ensures { result ≡ tree_n table.now t }
{
    match t {
        1..=limit::LAST_TREE => table[t as usize - 1],
        _ => AvlTree::default(),
    }
}

// Makes v tree t of the table, if t is a tree's number.
#[tactic(auto, unfolding(crate::specs::Head::set_tree_n))]
pub fn set_tree(table: &mut [AvlTree; 8], t: u8, v: AvlTree)
    ensures { table.new ≡ set_tree_n table.old t v }
{
    if let 1..=limit::LAST_TREE = t {
        table[t as usize - 1] = v;
    }
}

impl Head {
    // Tree t; an empty one for a number that is no tree's.
    pub fn tree(&self, t: u8) -> AvlTree
        ensures { result ≡ tree_n self.now.table t }
    {
        tree_in(&self.table, t)
    }
}
