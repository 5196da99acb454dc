// The ops that show a record: by key, beside a handle, at an end of a tree, and at the cursor.
ghost use Rattle.std.specs.Prelude.{◌≡◌, cond, eqb, Err};
ghost use Rattle.format.specs.declared.refusal.Refusal.TheVariants.{BadCursor, None};
ghost use Rattle.meaning.specs.Cursor.{kind};
ghost use Rattle.tree.specs.Node.{way};
ghost use Rattle.cursor.specs.Cursor.{cursor_of, beside_n};
ghost use Rattle.cursor.specs.Given.{sight_in};
ghost use Rattle.ops.specs.Given.{record_or};
ghost use Rattle.ops.specs.Ops.{get_n, beside_handle_n, first_n, entry_n, end_entry_n, peek_n, move_n};

use super::task::{Task, record_or};
use cursor::command::{handle, on_slot};
use cursor::cursor::{Cursor, Next};
use cursor::result::{Refused, Sight, kept_unless};
use format::refusal::Refusal;
use slots::record::record_at;
use tree::dir::Dir;
use tree::walk::{bottom_child, walk_dir};

impl Task {
    // 2 get.
    #[tactic(auto, unfolding(crate::specs::Ops::get_n, crate::specs::Ops::sought_n, crate::specs::Ending::look_n))]
    pub(crate) fn get(self, body: &[u8]) -> Result<Sight, Refused>
        ensures { sight_in result ≡ get_n body.now self.batch.numbers self.tree self.command }
    {
        self.on_tree()?;
        let slot = record_or(
            tree::search::get(body, self.tree, self.command.key),
            Refusal::None,
        )?;
        Ok(Sight {
            slot,
            then: Next::Gone,
        })
    }

    // 5 next, 6 prev of a handle.
    #[tactic(auto, unfolding(crate::specs::Ops::beside_handle_n, crate::specs::Ops::handle_tests_n, crate::specs::Ending::look_n))]
    pub(crate) fn beside_handle(self, body: &[u8], d: Dir) -> Result<Sight, Refused>
        ensures { sight_in result ≡ beside_handle_n body.now self.batch.numbers self.command (way d) }
    {
        let c = self.command;
        self.on_tree()?;
        on_slot(self.batch.numbers, c)?;
        handle(record_at(body, c.slot), c)?;
        let slot = record_or(walk_dir(body, c.slot, d), Refusal::None)?;
        Ok(Sight {
            slot,
            then: Next::Gone,
        })
    }

    // 7 first, 8 last.
    #[tactic(auto, unfolding(crate::specs::Ops::first_n, crate::specs::Ops::end_n, crate::specs::Ending::look_n))]
    pub(crate) fn first(self, body: &[u8], d: Dir) -> Result<Sight, Refused>
        ensures { sight_in result ≡ first_n body.now self.batch.numbers self.tree self.command (way d) }
    {
        self.on_tree()?;
        let slot = record_or(bottom_child(body, self.tree.root, d), Refusal::None)?;
        Ok(Sight {
            slot,
            then: Next::Gone,
        })
    }

    // 9 entry: the record, or else the one that the key would hang on.
    #[tactic(auto, unfolding(crate::specs::Ops::entry_n, crate::specs::Ops::sought_n, crate::specs::Ops::nearest_n, crate::specs::Ops::entered_n, crate::specs::Ending::look_n))]
    pub(crate) fn entry(self, body: &[u8]) -> Result<Sight, Refused>
        ensures { sight_in result ≡ entry_n body.now self.batch.numbers self.tree self.command }
    {
        self.on_tree()?;
        let p = tree::search::entry(body, self.tree, self.command.key);
        if p.slot == 0 {
            return Ok(Sight {
                slot: p.spot.parent,
                then: Next::Below(p.spot.side),
            });
        }
        Ok(Sight {
            slot: p.slot,
            then: Next::Shown,
        })
    }

    // 10 first_entry, 11 last_entry.
    #[tactic(auto, unfolding(crate::specs::Ops::end_entry_n, crate::specs::Ops::end_n, crate::specs::Ending::look_n))]
    pub(crate) fn end_entry(self, body: &[u8], d: Dir) -> Result<Sight, Refused>
        ensures { sight_in result ≡ end_entry_n body.now self.batch.numbers self.tree self.command d }
    {
        self.on_tree()?;
        Ok(Sight {
            slot: bottom_child(body, self.tree.root, d),
            then: Next::End(d),
        })
    }

    // The record beside the cursor.
    #[tactic(auto, unfolding(meaning::specs::Cursor::kind))]
    fn reached(self, body: &[u8], d: Dir) -> Result<u16, Refusal>
        ensures { result ≡ cond (eqb (kind (cursor_of self.batch.cursor)) 0) (Err BadCursor) (record_or (beside_n body.now (way d) (cursor_of self.batch.cursor)) None) }
    {
        let k = self.batch.cursor;
        if matches!(k, Cursor::Nowhere) {
            return Err(Refusal::BadCursor);
        }
        record_or(k.beside(body, d), Refusal::None)
    }

    // 12 peek_next, 13 peek_prev.
    #[tactic(auto, unfolding(crate::specs::Ops::peek_n, crate::specs::Ops::cursor_test, crate::specs::Ending::look_n))]
    pub(crate) fn peek(self, body: &[u8], d: Dir) -> Result<Sight, Refused>
        ensures { sight_in result ≡ peek_n body.now (cursor_of self.batch.cursor) (way d) }
    {
        let slot = self.reached(body, d).map_err(Refused::keeping)?;
        Ok(Sight {
            slot,
            then: Next::Kept,
        })
    }

    // 14 move_next, 15 move_prev. A move that finds nothing loses the cursor.
    #[tactic(auto, unfolding(crate::specs::Ops::move_n, crate::specs::Ops::cursor_test, crate::specs::Ending::look_n))]
    pub(crate) fn move_beside(self, body: &[u8], d: Dir) -> Result<Sight, Refused>
        ensures { sight_in result ≡ move_n body.now (cursor_of self.batch.cursor) (way d) }
    {
        let slot = kept_unless(self.reached(body, d), Refusal::None)?;
        Ok(Sight {
            slot,
            then: Next::Shown,
        })
    }
}
