// Journal: the changes since a mark, and how they are undone, last first.
//
// An entry says that a record was added to a slot, or holds the record that was removed from it. `roll_back`
// undoes the entries on the body and the head of crate `slots` and cuts the text back to where it was at the
// mark: an equation with `roll_back_n` of specs/Journal.antt. If the entries are the changes of the open
// mark of a pool of `meaning`, body and head are then those of its `rollback` (proofs/Unrolling.antt).
#![tactic(auto)]

ghost use Rattle.std.specs.Prelude.{◌≡◌, ◌<◌, ◌≤◌, [], ◌∷◌, ◌++◌, length, map, take, IfNone};
ghost use Rattle.std.specs.Option.{option_to_list};
ghost use Rattle.journal.specs.Journal.{Changes, packed, unpacked, undo_one_n, undo_n, roll_back_n};

use slots::change::{cut, drop_rec, put_rec};
use slots::head::Head;
use slots::record::{Record, record_at};
use std::marker::Model;

// One change to the record of a slot.
#[derive(Clone, Copy)]
pub struct Entry {
    pub slot: u16,
    pub change: Noted,
}

// A record was added there, or this record was removed from it.
#[derive(Clone, Copy)]
pub enum Noted {
    Added,
    Removed(Record),
}

// An entry as the array holds it. What is cleared and copied as a whole has no padding, and an entry's enum has a tag
// and padding beside its record: an array of entries would be larger by two thirds, and set entry by entry. Here the
// fields stand side by side and fill the struct.
#[derive(Clone, Copy, Default)]
struct Row {
    key: u64,
    stamp: u32,
    start: u32,
    len: u16,
    slot: u16,
    tree: u8,
    // false for a removal: what a new array is filled with is then all 0, and clears it by one call
    added: bool,
    // always 0: the last two bytes, which would be padding
    spare: u16,
}

// The bytes of its fields, and no more.
const _: () = prove!(size_of::<Row>() == 24);

impl From<Entry> for Row {
    ghost from_gives = { λ e row. row ≡ packed e };

    fn from(e: Entry) -> Row {
        match e.change {
            Noted::Added => Row {
                slot: e.slot,
                added: true,
                ..Row::default()
            },
            Noted::Removed(v) => Row {
                key: v.key,
                stamp: v.stamp,
                start: v.start,
                len: v.len,
                slot: e.slot,
                tree: v.tree,
                added: false,
                spare: 0,
            },
        }
    }
}

impl From<Row> for Entry {
    ghost from_gives = { λ row e. e ≡ unpacked row };

    fn from(row: Row) -> Entry {
        let change = if row.added {
            Noted::Added
        } else {
            Noted::Removed(Record {
                key: row.key,
                stamp: row.stamp,
                start: row.start,
                len: row.len,
                tree: row.tree,
            })
        };
        Entry {
            slot: row.slot,
            change,
        }
    }
}

// The changes in their order, at most one for each command of a batch: the first `len` entries.
// A struct of our own (fixed memory). Tried with entries that weren't packed: with the kit's `ArrayVec`, which builds
// its array in a second one, the stack was deeper by that array and a batch 0.24 microseconds longer.
#[derive(Drop)]
pub struct Journal {
    entries: [Row; 256],
    len: usize,
}

impl Model for Journal {
    ghost Value = { Changes };

    ghost view = { λ j. record { items = map unpacked (take j.len j.entries) } };

    ghost invariant = { λ j. j.len ≤ 256 };
}

impl Journal {
    pub fn new() -> Self
        ensures { result.items ≡ [] }
    {
        Journal {
            entries: [Row::default(); 256],
            len: 0,
        }
    }

    // One change more.
    pub fn push(&mut self, e: Entry)
        requires { length self.old.items < 256 }
        ensures items { self.new.items ≡ self.old.items ++ e ∷ [] }
    {
        self.entries[self.len] = Row::from(e);
        self.len += 1;
    }

    // The last change, if there is one.
    pub fn pop(&mut self) -> Option<Entry>
        ensures items { self.old.items ≡ self.new.items ++ option_to_list result }
        ensures none { IfNone result (length self.old.items ≡ 0) }
    {
        if self.len == 0 {
            return None;
        }
        self.len -= 1;
        Some(Entry::from(self.entries[self.len]))
    }

    // No change.
    pub fn clear(&mut self)
        ensures { self.new.items ≡ [] }
    {
        self.len = 0;
    }
}

// An added record is removed; a removed one goes back into its slot and, by its key, into its tree.
#[tactic(auto, unfolding(crate::specs::Journal::undo_at_n))]
fn undo_one(body: &mut [u8], h: &mut Head, e: Entry)
    ensures { (body.new, h.new) ≡ undo_one_n body.old h.old e }
{
    match e.change {
        Noted::Added => {
            let old = record_at(body, e.slot);
            drop_rec(body, h, e.slot, old.tree);
        }
        Noted::Removed(v) => {
            let p = tree::search::entry(body, h.tree(v.tree), v.key);
            put_rec(body, h, e.slot, v, p.spot);
        }
    }
}

// The changes undone, the last first, until none is left.
fn undo(body: &mut [u8], h: &mut Head, journal: &mut Journal)
    ensures undone { (body.new, h.new) ≡ undo_n (length journal.old.items) body.old h.old journal.old.items }
    ensures none_left { journal.new.items ≡ [] }
{
    while let Some(e) = journal.pop() {
        undo_one(body, h, e);
    }
}

// The changes undone, and the text back to where it was at the mark: its first `used` bytes.
#[tactic(auto, unfolding(crate::specs::Journal::roll_back_n))]
pub fn roll_back(body: &mut [u8], h: &mut Head, used: u32, journal: &mut Journal)
    ensures undone { (body.new, h.new) ≡ roll_back_n (length journal.old.items) body.old h.old used journal.old.items }
    ensures none_left { journal.new.items ≡ [] }
{
    undo(body, h, journal);
    cut(body, h, used);
}
