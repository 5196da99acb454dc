// A side of a record.
ghost use Rattle.std.specs.Prelude.{◌≡◌};
ghost use Rattle.avl.specs.Tree.{flip, to_balance};
ghost use Rattle.tree.specs.Node.{way, offset, child};

use format::{balance, link};

#[derive(Clone, Copy, PartialEq, Eq)]
pub enum Dir {
    Left,
    Right,
}

impl Dir {
    // The Rust's names of the two, which the direction owns.
    pub const LEFT: Dir = Dir::Left;

    pub const RIGHT: Dir = Dir::Right;

    pub fn reverse(self) -> Dir
        ensures { way result ≡ flip (way self) }
    {
        match self {
            Dir::Left => Dir::Right,
            Dir::Right => Dir::Left,
        }
    }

    // The balance of a record whose higher side this is.
    pub fn to_balance(self) -> u8
        ensures { result ≡ to_balance (way self) }
    {
        match self {
            Dir::Left => balance::LEFT,
            Dir::Right => balance::RIGHT,
        }
    }

    // Where a record has its child on this side.
    pub fn field(self) -> u8
        ensures { result ≡ offset (child (way self)) }
    {
        match self {
            Dir::Left => link::LEFT,
            Dir::Right => link::RIGHT,
        }
    }
}
