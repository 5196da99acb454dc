// What changes a pool: a record into a slot and its tree and out of both, a new record's name and stamp,
// reset, and the text cut back. The steps on the body and on single numbers are public too. Body and head are no
// one struct: a batch keeps the head's numbers in its state and the table in an array of its own.
ghost use Rattle.std.specs.Prelude.{◌≡◌, ◌+◌, ◌*◌};
ghost use Rattle.fields.specs.Part.{part, splice};
ghost use Rattle.tree.specs.Node.{way};
ghost use Rattle.slots.specs.Change.{free_after_n, freed_n, hung_n, put_rec_n, taken_n, drop_rec_n, plus_n, rise_n, emptied_n, cut_n};

use super::head::{Head, Numbers, set_tree};
use super::record::{Record, clear, fill, lowest};
use tree::insert::{insert, more};
use tree::node::AvlTree;
use tree::remove::{less, remove};
use tree::spot::Spot;

// ---- a record in

// The lowest free slot once slot x is taken.
#[tactic(auto, unfolding(crate::specs::Change::free_after_n))]
pub fn free_after(body: &[u8], slots: u16, free: u16, x: u16) -> u16
    ensures { result ≡ free_after_n body.now slots free x }
{
    if x == free {
        lowest(body, x, slots)
    } else {
        free
    }
}

// The record v in slot x, hung at the empty place of the tree t.
#[tactic(auto, unfolding(crate::specs::Change::hung_n))]
pub fn hang_in(body: &mut [u8], t: AvlTree, x: u16, v: Record, at: Spot) -> AvlTree
    ensures { (body.new, result) ≡ hung_n body.old t x v at.parent (way at.side) }
{
    fill(body, x, v);
    insert(body, t, x, at)
}

// The record v into the free slot x and into its tree, at the empty place.
#[tactic(auto, unfolding(crate::specs::Change::put_rec_n))]
pub fn put_rec(body: &mut [u8], h: &mut Head, x: u16, v: Record, at: Spot)
    ensures { (body.new, h.new) ≡ put_rec_n body.old h.old x v at.parent (way at.side) }
{
    let t = hang_in(body, h.tree(v.tree), x, v, at);
    set_tree(&mut h.table, v.tree, t);
    let n = &mut h.numbers;
    n.live = more(n.live);
    n.free = free_after(body, n.slots, n.free, x);
}

// ---- a record out

// The lowest free slot once slot x is free too.
#[tactic(auto, unfolding(crate::specs::Change::freed_n))]
pub fn freed(free: u16, x: u16) -> u16
    ensures { result ≡ freed_n free x }
{
    if free == 0 { x } else { free.min(x) }
}

// Slot x out of the tree t, and its bytes zeroed.
#[tactic(auto, unfolding(crate::specs::Change::taken_n))]
pub fn take(body: &mut [u8], t: AvlTree, x: u16) -> AvlTree
    ensures { (body.new, result) ≡ taken_n body.old t x }
{
    let u = remove(body, t, x);
    clear(body, x);
    u
}

// The record of slot x out of tree t, and its slot zeroed.
#[tactic(auto, unfolding(crate::specs::Change::drop_rec_n))]
pub fn drop_rec(body: &mut [u8], h: &mut Head, x: u16, t: u8)
    ensures { (body.new, h.new) ≡ drop_rec_n body.old h.old x t }
{
    let u = take(body, h.tree(t), x);
    set_tree(&mut h.table, t, u);
    let n = &mut h.numbers;
    n.live = less(n.live);
    n.free = freed(n.free, x);
}

// ---- a new record's name and stamp

// From here on a name of 65,535 bytes more might wrap, and text used stays (`plus_n`): `saturating_add` would raise it.
const NEARLY_FULL: u32 = 4_294_901_760;

// Text used after a name of len bytes more; sums that would wrap stay.
#[tactic(auto, unfolding(crate::specs::Change::plus_n))]
pub fn plus(used: u32, len: u16) -> u32
    ensures { result ≡ plus_n used len }
{
    if NEARLY_FULL <= used {
        used
    } else {
        used + len as u32
    }
}

// The stamp after this one; the last one stays. Kept by name since pages promise it.
#[tactic(auto, unfolding(crate::specs::Change::rise_n))]
pub fn rise(next: u32) -> u32
    ensures { result ≡ rise_n next }
{
    next.saturating_add(1)
}

// Copies the len bytes of the names from `from` on into the body, if they lie within the names.
pub fn append_name(body: &mut [u8], at: usize, names: &[u8], from: usize, len: usize)
    ensures { body.new ≡ splice body.old at (part names.now from len) }
{
    if !fields::within(names, from, len) {
        return;
    }
    fields::copy_in(body, at, &names[from..from + len]);
}

// ---- the whole

// Every record free, every tree empty, no text. The next stamp stays.
pub fn reset(body: &mut [u8], h: Head) -> Head
    ensures { (body.new, result) ≡ emptied_n body.old h }
{
    fields::zero_out(body, 0, body.len());
    let n = h.numbers;
    Head {
        numbers: Numbers {
            live: 0,
            free: 1,
            used: 0,
            ..n
        },
        table: [AvlTree::default(); 8],
    }
}

// The text back to its first `used` bytes, and zeros above.
#[tactic(auto, unfolding(crate::specs::Change::cut_n))]
pub fn cut(body: &mut [u8], h: &mut Head, used: u32)
    ensures { (body.new, h.new) ≡ cut_n body.old h.old used }
{
    let n = &mut h.numbers;
    if n.used < used {
        return;
    }
    let at = format::record::SIZE * (n.slots as usize) + used as usize;
    fields::zero_out(body, at, (n.used - used) as usize);
    n.used = used;
}
