// The cursor of a batch, after entry.rs: a value that each step takes and gives back. Each case but
// Nowhere has its tree; the record is 0 on an empty tree. What a case stands for is `cursor_of` of specs/Cursor.antt.
ghost use Rattle.std.specs.Prelude.{◌≡◌};
ghost use Rattle.meaning.specs.Cursor.{kind, cursor_tree, standing};
ghost use Rattle.tree.specs.Node.{way};
ghost use Rattle.cursor.specs.Cursor.{cursor_of, beside_n, after_n};

use super::command::Command;
use format::kind;
use tree::dir::Dir;
use tree::walk::walk_dir;

#[derive(Clone, Copy)]
pub enum Cursor {
    Nowhere,
    // at a record
    Occupied(u8, u16),
    // where the record with a key would hang: the record above, its side, the key
    Vacant(u8, u16, Dir, u64),
    First(u8, u16),
    Last(u8, u16),
}

// What comes of the cursor by a command. Results hold this and no cursor: two bytes, where copies of a
// cursor from one struct to another would read across bytes just written and wait for them.
#[derive(Clone, Copy)]
pub enum Next {
    Gone,
    Kept,
    // at the record shown
    Shown,
    // at the record where it stood
    Stood,
    // the first entry of the tree on the left, the last on the right: at the record shown
    End(Dir),
    // the vacant entry for the command's key, on this side below the record shown
    Below(Dir),
}

impl Cursor {
    // A number, as an answer shows the kind to C in a byte.
    #[tactic(auto, unfolding(meaning::specs::Cursor::kind))]
    pub fn kind(self) -> u8
        ensures { result ≡ kind (cursor_of self) }
    {
        match self {
            Cursor::Nowhere => kind::NOWHERE,
            Cursor::Occupied(_, _) => kind::OCCUPIED,
            Cursor::Vacant(_, _, _, _) => kind::VACANT,
            Cursor::First(_, _) => kind::FIRST,
            Cursor::Last(_, _) => kind::LAST,
        }
    }

    // Its tree, 0 for none as in the pool's bytes: a command takes the number as it is.
    #[tactic(auto, unfolding(meaning::specs::Cursor::cursor_tree))]
    pub fn tree(self) -> u8
        ensures { result ≡ cursor_tree (cursor_of self) }
    {
        match self {
            Cursor::Nowhere => 0,
            Cursor::Occupied(t, _)
            | Cursor::Vacant(t, _, _, _)
            | Cursor::First(t, _)
            | Cursor::Last(t, _) => t,
        }
    }

    // The record that it is at, 0 for none as in the pool's bytes: the next cursor takes the slot as it is.
    #[tactic(auto, unfolding(meaning::specs::Cursor::standing))]
    pub fn standing(self) -> u16
        ensures { result ≡ standing (cursor_of self) }
    {
        match self {
            Cursor::Nowhere | Cursor::Vacant(_, _, _, _) => 0,
            Cursor::Occupied(_, x) | Cursor::First(_, x) | Cursor::Last(_, x) => x,
        }
    }

    // The record on side d of it, 0 for none as in the pool's bytes: an order of keys takes the slot as it is.
    // A vacant entry hung on side e of a record has that record on its other side.
    #[tactic(auto, unfolding(crate::specs::Cursor::beside_n))]
    pub fn beside(self, body: &[u8], d: Dir) -> u16
        ensures { result ≡ beside_n body.now (way d) (cursor_of self) }
    {
        match self {
            Cursor::Nowhere => 0,
            Cursor::Vacant(_, x, e, _) if e != d => x,
            Cursor::Occupied(_, x)
            | Cursor::Vacant(_, x, _, _)
            | Cursor::First(_, x)
            | Cursor::Last(_, x) => walk_dir(body, x, d),
        }
    }

    // The next cursor: after the command c, which showed the record x.
    pub fn after(self, c: Command, then: Next, x: u16) -> Cursor
        ensures { cursor_of result ≡ after_n (cursor_of self) c then x }
    {
        let t = c.tree;
        match then {
            Next::Gone => Cursor::Nowhere,
            Next::Kept => self,
            Next::Shown => Cursor::Occupied(t, x),
            Next::Stood => Cursor::Occupied(t, self.standing()),
            Next::End(Dir::Left) => Cursor::First(t, x),
            Next::End(Dir::Right) => Cursor::Last(t, x),
            Next::Below(d) => Cursor::Vacant(t, x, d, c.key),
        }
    }
}
