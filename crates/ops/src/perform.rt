// One command, by its op: what shows a record, what adds or removes one, what settles a mark. An unknown
// op is refused where it is parsed (op.rt).
ghost use Rattle.std.specs.Prelude.{◌≡◌};
ghost use Rattle.cursor.specs.Cursor.{cursor_of};
ghost use Rattle.cursor.specs.Given.{mark_in, sight_in, step_in};
ghost use Rattle.ops.specs.Given.{settled_in};
ghost use Rattle.ops.specs.Op.{show_number, alter_number, settle_number};
ghost use Rattle.ops.specs.Perform.{see_n, alter_n, settle_n};

use super::mark::{Settled, commit, mark, reset, rollback};
use super::op::{self, Alter, Show};
use super::task::Task;
use cursor::cursor::Next;
use cursor::result::{Refused, Sight, Step};
use format::refusal::Refusal;
use slots::head::Head;

impl Task {
    #[tactic(auto, unfolding(crate::specs::Perform::see_n))]
    pub fn see(self, body: &[u8], op: Show) -> Result<Sight, Refused>
        ensures { sight_in result ≡ see_n body.now self.batch.numbers (cursor_of self.batch.cursor) self.tree self.command (show_number op) }
    {
        match op {
            Show::Get => self.get(body),
            Show::Beside(d) => self.beside_handle(body, d),
            Show::End(d) => self.first(body, d),
            Show::Entry => self.entry(body),
            Show::EndEntry(d) => self.end_entry(body, d),
            Show::Peek(d) => self.peek(body, d),
            Show::Move(d) => self.move_beside(body, d),
        }
    }

    #[tactic(auto, unfolding(crate::specs::Perform::alter_n))]
    pub fn alter(self, body: &mut [u8], names: &[u8], op: Alter) -> Result<Step, Refused>
        ensures { (body.new, step_in result) ≡ alter_n body.old names.now self.batch.numbers (cursor_of self.batch.cursor) self.tree self.command (alter_number op) }
    {
        match op {
            Alter::Add => self.add(body, names),
            Alter::RemoveByKey => self.remove_by_key(body),
            Alter::Remove => self.remove_handle(body),
            Alter::InsertBeside(d) => self.insert_beside(body, names, d, Next::Stood),
            Alter::InsertAndMove(d) => self.insert_beside(body, names, d, Next::Shown),
            Alter::InsertNode => self.insert_node(body, names),
            Alter::RemoveHere => self.remove_here(body),
            Alter::RemoveBeside(d) => self.remove_beside(body, d),
            Alter::InsertEnd(d) => self.insert_end(body, names, d),
        }
    }
}

#[tactic(auto, unfolding(crate::specs::Perform::settle_n))]
pub fn settle(body: &mut [u8], h: Head, m: Option<u32>, op: op::Settle) -> Result<Settled, Refusal>
    ensures { (body.new, settled_in h (mark_in m) result) ≡ settle_n body.old h (mark_in m) (settle_number op) }
{
    match op {
        op::Settle::Mark => mark(h, m),
        op::Settle::Rollback => rollback(h, m),
        op::Settle::Commit => commit(h, m),
        op::Settle::Reset => reset(body, h, m),
    }
}
