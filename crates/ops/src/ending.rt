// The ways in which a command that is not refused changes the pool: it takes a record out, or adds one.
ghost use Rattle.std.specs.Prelude.{◌≡◌, Ok};
ghost use Rattle.tree.specs.Node.{way};
ghost use Rattle.cursor.specs.Given.{step_in};
ghost use Rattle.ops.specs.Ending.{take_out_n, new_record, add_new_n};

use super::task::Task;
use cursor::cursor::Next;
use cursor::result::{Change, Step};
use format::record;
use slots::change::{append_name, free_after, freed, hang_in, take};
use slots::record::{Record, record_at};
use tree::spot::Spot;

impl Task {
    // The record x taken out of the tree, and shown as it was.
    #[tactic(auto, unfolding(crate::specs::Ending::take_out_n))]
    pub(crate) fn take_out(self, body: &mut [u8], x: u16, then: Next) -> Step
        ensures { (body.new, step_in (Ok result)) ≡ take_out_n body.old self.batch.numbers.free self.tree x 0 then }
    {
        let v = record_at(body, x);
        let smaller = take(body, self.tree, x);
        Step {
            key: v.key,
            stamp: v.stamp,
            start: v.start,
            tree: smaller,
            slot: x,
            free: freed(self.batch.numbers.free, x),
            len: v.len,
            change: Change::Removed,
            then,
        }
    }

    // The record that the command adds to its tree.
    fn new_record(self) -> Record
        ensures { result ≡ new_record self.batch.numbers self.command }
    {
        let c = self.command;
        Record {
            key: c.key,
            stamp: self.batch.numbers.next,
            start: self.batch.numbers.used,
            len: c.len,
            tree: c.tree,
        }
    }

    // The record of the command added to its tree at the empty place s, in the lowest free slot.
    #[tactic(auto, unfolding(crate::specs::Ending::add_new_n))]
    pub(crate) fn add_new(self, body: &mut [u8], names: &[u8], s: Spot, then: Next) -> Step
        ensures { (body.new, step_in (Ok result)) ≡ add_new_n body.old names.now self.batch.numbers self.tree self.command (s.parent, way s.side) 0 then }
    {
        let numbers = self.batch.numbers;
        let c = self.command;
        let at = record::SIZE * (numbers.slots as usize) + numbers.used as usize;
        append_name(body, at, names, c.at as usize, c.len as usize);
        let v = self.new_record();
        let x = numbers.free;
        let larger = hang_in(body, self.tree, x, v, s);
        Step {
            key: v.key,
            stamp: v.stamp,
            start: v.start,
            tree: larger,
            slot: x,
            free: free_after(body, numbers.slots, x, x),
            len: v.len,
            change: Change::Added,
            then,
        }
    }
}
