// The ops that add a record: by key, beside the cursor's record, at a vacant entry, and at an end.
ghost use Rattle.std.specs.Prelude.{◌≡◌, cond, eqb, Ok, Err};
ghost use Rattle.format.specs.declared.refusal.Refusal.TheVariants.{BadCursor};
ghost use Rattle.tree.specs.Node.{way};
ghost use Rattle.meaning.specs.Cursor.{kind, standing};
ghost use Rattle.cursor.specs.Cursor.{cursor_of};
ghost use Rattle.cursor.specs.Given.{step_in};
ghost use Rattle.ops.specs.Ops.{add_n, insert_beside_n, insert_node_n, kind_at, insert_end_n};

use super::task::Task;
use cursor::command::is_between;
use cursor::cursor::{Cursor, Next};
use cursor::result::{Refused, Step, kept_unless};
use format::refusal::Refusal;
use tree::dir::Dir;
use tree::insert::beside;
use tree::spot::Spot;

impl Task {
    // 1 add.
    #[tactic(auto, unfolding(crate::specs::Ops::add_n, crate::specs::Ops::sought_n, crate::specs::Ending::add_new_n))]
    pub(crate) fn add(self, body: &mut [u8], names: &[u8]) -> Result<Step, Refused>
        ensures { (body.new, step_in result) ≡ add_n body.old names.now self.batch.numbers self.tree self.command }
    {
        self.on_tree()?;
        let p = tree::search::entry(body, self.tree, self.command.key);
        self.named(names, p.slot != 0, Refusal::Present)?;
        Ok(self.add_new(body, names, p.spot, Next::Gone))
    }

    // 16 insert before, 17 insert after: the cursor stays where it stood; 18, 19 the same and move to it.
    #[tactic(auto, unfolding(crate::specs::Ops::insert_beside_n, crate::specs::Ending::add_new_n))]
    pub(crate) fn insert_beside(
        self,
        body: &mut [u8],
        names: &[u8],
        d: Dir,
        done: Next,
    ) -> Result<Step, Refused>
        ensures { (body.new, step_in result) ≡ insert_beside_n body.old names.now self.batch.numbers (cursor_of self.batch.cursor) self.tree self.command (way d) done }
    {
        let x = self.here().map_err(Refused::keeping)?;
        let y = self.batch.cursor.beside(body, d);
        let ordered = is_between(body, d, x, y, self.command.key);
        self.named(names, !ordered, Refusal::Order)
            .map_err(Refused::keeping)?;
        let s = beside(body, x, d);
        Ok(self.add_new(body, names, s, done))
    }

    // 20 insert_node.
    #[tactic(auto, unfolding(crate::specs::Ops::insert_node_n, crate::specs::Ending::add_new_n, meaning::specs::Cursor::kind, meaning::specs::Cursor::entry_key, meaning::specs::Command::is_other, cursor::specs::Cursor::hung_n))]
    pub(crate) fn insert_node(self, body: &mut [u8], names: &[u8]) -> Result<Step, Refused>
        ensures { (body.new, step_in result) ≡ insert_node_n body.old names.now self.batch.numbers (cursor_of self.batch.cursor) self.tree self.command }
    {
        let Cursor::Vacant(_, parent, side, key) = self.batch.cursor else {
            return Err(Refused::keeping(Refusal::BadCursor));
        };
        self.named(names, key != self.command.key, Refusal::Order)
            .map_err(Refused::keeping)?;
        Ok(self.add_new(body, names, Spot { parent, side }, Next::Shown))
    }

    // The record at the end of its tree on side d, if the cursor is the entry at that end.
    #[tactic(auto, unfolding(meaning::specs::Cursor::kind, meaning::specs::Cursor::standing))]
    fn at_end(self, d: Dir) -> Result<u16, Refusal>
        ensures { result ≡ cond (eqb (kind (cursor_of self.batch.cursor)) (kind_at (way d))) (Ok (standing (cursor_of self.batch.cursor))) (Err BadCursor) }
    {
        match (self.batch.cursor, d) {
            (Cursor::First(_, x), Dir::Left) | (Cursor::Last(_, x), Dir::Right) => Ok(x),
            _ => Err(Refusal::BadCursor),
        }
    }

    // 24 append, 25 prepend. Nothing lies beyond the end. One that is out of order loses the cursor.
    #[tactic(auto, unfolding(crate::specs::Ops::insert_end_n, crate::specs::Ending::add_new_n))]
    pub(crate) fn insert_end(self, body: &mut [u8], names: &[u8], d: Dir) -> Result<Step, Refused>
        ensures { (body.new, step_in result) ≡ insert_end_n body.old names.now self.batch.numbers (cursor_of self.batch.cursor) self.tree self.command d }
    {
        let x = self.at_end(d).map_err(Refused::keeping)?;
        let ordered = is_between(body, d, x, 0, self.command.key);
        let test = self.named(names, !ordered, Refusal::Order);
        kept_unless(test, Refusal::Order)?;
        let s = beside(body, x, d);
        Ok(self.add_new(body, names, s, Next::End(d)))
    }
}
