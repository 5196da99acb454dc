// The ops that remove a record: by key, by handle, at the cursor and beside it.
ghost use Rattle.std.specs.Prelude.{◌≡◌};
ghost use Rattle.tree.specs.Node.{way};
ghost use Rattle.cursor.specs.Cursor.{cursor_of};
ghost use Rattle.cursor.specs.Given.{step_in};
ghost use Rattle.ops.specs.Ops.{remove_by_key_n, remove_handle_n, remove_here_n, remove_beside_n};

use super::task::{Task, record_or};
use cursor::command::{handle, on_slot};
use cursor::cursor::Next;
use cursor::result::{Refused, Step};
use format::refusal::Refusal;
use slots::record::record_at;
use tree::dir::Dir;

impl Task {
    // 3 remove_by_key.
    #[tactic(auto, unfolding(crate::specs::Ops::remove_by_key_n, crate::specs::Ops::sought_n, crate::specs::Ending::take_out_n))]
    pub(crate) fn remove_by_key(self, body: &mut [u8]) -> Result<Step, Refused>
        ensures { (body.new, step_in result) ≡ remove_by_key_n body.old self.batch.numbers self.tree self.command }
    {
        self.on_tree()?;
        let x = record_or(
            tree::search::get(body, self.tree, self.command.key),
            Refusal::None,
        )?;
        Ok(self.take_out(body, x, Next::Gone))
    }

    // 4 remove by handle.
    #[tactic(auto, unfolding(crate::specs::Ops::remove_handle_n, crate::specs::Ops::handle_tests_n, crate::specs::Ending::take_out_n))]
    pub(crate) fn remove_handle(self, body: &mut [u8]) -> Result<Step, Refused>
        ensures { (body.new, step_in result) ≡ remove_handle_n body.old self.batch.numbers self.tree self.command }
    {
        let c = self.command;
        self.on_tree()?;
        on_slot(self.batch.numbers, c)?;
        handle(record_at(body, c.slot), c)?;
        Ok(self.take_out(body, c.slot, Next::Gone))
    }

    // 21 remove at the cursor.
    #[tactic(auto, unfolding(crate::specs::Ops::remove_here_n, crate::specs::Ending::take_out_n))]
    pub(crate) fn remove_here(self, body: &mut [u8]) -> Result<Step, Refused>
        ensures { (body.new, step_in result) ≡ remove_here_n body.old self.batch.numbers (cursor_of self.batch.cursor) self.tree }
    {
        let x = self.here().map_err(Refused::keeping)?;
        Ok(self.take_out(body, x, Next::Gone))
    }

    // 22 remove_prev, 23 remove_next.
    #[tactic(auto, unfolding(crate::specs::Ops::remove_beside_n, crate::specs::Ending::take_out_n))]
    pub(crate) fn remove_beside(self, body: &mut [u8], d: Dir) -> Result<Step, Refused>
        ensures { (body.new, step_in result) ≡ remove_beside_n body.old self.batch.numbers (cursor_of self.batch.cursor) self.tree (way d) }
    {
        self.here().map_err(Refused::keeping)?;
        let y = self.batch.cursor.beside(body, d);
        let x = record_or(y, Refusal::None).map_err(Refused::keeping)?;
        Ok(self.take_out(body, x, Next::Stood))
    }
}
