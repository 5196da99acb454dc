// The state of a batch: what it carries from one command to the next, and that state after a command.
ghost use Rattle.std.specs.Prelude.{List, ◌≡◌, Ok};
ghost use Rattle.tree.specs.declared.node.AvlTree.{AvlTree};
ghost use Rattle.cursor.specs.Cursor.{cursor_of, after_n};
ghost use Rattle.cursor.specs.Given.{mark_in, sight_in, step_in};
ghost use Rattle.cursor.specs.Work.{head_of, work_of, begun_n, placed, seen_n, numbers_after, table_after, stepped};

use super::command::Command;
use super::cursor::Cursor;
use super::result::{Change, Refused, Sight, Step};
use slots::change::{plus, rise};
use slots::head::{Head, Numbers};
use tree::node::AvlTree;

// The head's numbers, the cursor, and while a mark is open, text used when it was opened. The tree table
// stands beside it, in an array that stays where it is.
#[derive(Clone, Copy)]
pub struct Batch {
    pub numbers: Numbers,
    pub cursor: Cursor,
    pub mark: Option<u32>,
}

impl Batch {
    // The state of a pool with this head, with no cursor.
    #[tactic(auto, unfolding(crate::specs::Work::begun_n))]
    pub fn begun(h: Head, mark: Option<u32>) -> Batch
        ensures { work_of result h.table ≡ begun_n h (mark_in mark) }
    {
        Batch {
            numbers: h.numbers,
            cursor: Cursor::Nowhere,
            mark,
        }
    }

    // The head of the pool: its numbers with the table.
    pub fn head(self, ts: [AvlTree; 8]) -> Head
        ensures { result ≡ head_of self ts }
    {
        Head {
            numbers: self.numbers,
            table: ts,
        }
    }

    // After the command c showed a record.
    pub fn seen(self, c: Command, s: Sight) -> Batch
        ensures { (ts : List AvlTree) → work_of result ts ≡ seen_n (work_of self ts) c (sight_in (Ok s)) }
    {
        Batch {
            cursor: self.cursor.after(c, s.then, s.slot),
            ..self
        }
    }

    // After the command c added or removed a record; the table is set where it stands.
    pub fn changed(self, c: Command, s: Step) -> Batch
        ensures { (ts : List AvlTree) → work_of result (table_after ts c (step_in (Ok s))) ≡ stepped (work_of self ts) c (step_in (Ok s)) }
    {
        Batch {
            numbers: numbers_after(self.numbers, s),
            cursor: self.cursor.after(c, s.then, s.slot),
            ..self
        }
    }

    // After the command c was refused.
    pub fn refused(self, c: Command, r: Refused) -> Batch
        ensures { (ts : List AvlTree) → work_of result ts ≡ placed (work_of self ts) (after_n (cursor_of self.cursor) c r.then 0) }
    {
        Batch {
            cursor: self.cursor.after(c, r.then, 0),
            ..self
        }
    }
}

// The numbers after an addition or a removal.
#[tactic(auto, using(std::proofs::lemmas::Bool::Decides::nat_tests), unfolding(crate::specs::Work::numbers_after, tree::specs::Insert::more_n, tree::specs::Remove::less_n))]
fn numbers_after(numbers: Numbers, s: Step) -> Numbers
    ensures { result ≡ numbers_after numbers (step_in (Ok s)) }
{
    match s.change {
        Change::Added => Numbers {
            live: numbers.live.saturating_add(1),
            free: s.free,
            used: plus(numbers.used, s.len),
            next: rise(numbers.next),
            ..numbers
        },
        Change::Removed => Numbers {
            live: numbers.live.saturating_sub(1),
            free: s.free,
            ..numbers
        },
    }
}
