// A command with what it works on, and the tests that ops share.
ghost use Rattle.std.specs.Prelude.{ℕ, ◌≡◌};
ghost use Rattle.format.specs.Refusal.{number};
ghost use Rattle.format.specs.declared.refusal.Refusal.TheVariants.{BadCursor};
ghost use Rattle.meaning.specs.Cursor.{standing};
ghost use Rattle.cursor.specs.Cursor.{cursor_of};
ghost use Rattle.cursor.specs.Given.{tested};
ghost use Rattle.cursor.specs.Tests.{tree_test};
ghost use Rattle.ops.specs.Given.{record_or};
ghost use Rattle.ops.specs.Ops.{name_test};

use cursor::command::{Command, is_name, on_tree, room};
use cursor::state::Batch;
use format::refusal::Refusal;
use tree::node::AvlTree;

// A command on the tree that it works on, that tree, and the state of the batch before it. Body and names are lent
// and stay out of it: it is a value that is copied.
#[derive(Clone, Copy)]
pub struct Task {
    pub command: Command,
    pub tree: AvlTree,
    pub batch: Batch,
}

impl Task {
    // Whether there is such a tree.
    pub fn on_tree(self) -> Result<(), Refusal>
        ensures { (rest : ℕ) → tested result rest ≡ tree_test self.batch.numbers self.command rest }
    {
        on_tree(self.batch.numbers, self.command)
    }

    // The record that the cursor is at.
    pub fn here(self) -> Result<u16, Refusal>
        ensures { result ≡ record_or (standing (cursor_of self.batch.cursor)) BadCursor }
    {
        record_or(self.batch.cursor.standing(), Refusal::BadCursor)
    }

    // Whether its name can be added: the name, then the op's own test with its refusal, then room.
    #[tactic(auto, unfolding(crate::specs::Ops::name_test))]
    pub fn named(self, names: &[u8], own: bool, why: Refusal) -> Result<(), Refusal>
        ensures { tested result 0 ≡ name_test names.now self.batch.numbers self.command (number why) own }
    {
        let c = self.command;
        if !is_name(names, c.at, c.len) {
            return Err(Refusal::BadName);
        }
        if own {
            return Err(why);
        }
        room(self.batch.numbers, c.len)
    }
}

// The record x, or why there is none.
pub fn record_or(x: u16, why: Refusal) -> Result<u16, Refusal>
    ensures { result ≡ record_or x why }
{
    if x == 0 {
        return Err(why);
    }
    Ok(x)
}
