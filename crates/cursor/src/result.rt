// What a command has done, as its function hands it back to the batch's loop, or why it is refused. A result
// has no cursor, but what comes of it.
ghost use Rattle.std.specs.Prelude.{◌≡◌};
ghost use Rattle.cursor.specs.declared.cursor.Next.TheVariants.{Gone, Kept};
ghost use Rattle.cursor.specs.Given.{kept_unless_in};

use super::cursor::Next;
use format::refusal::Refusal;
use tree::node::AvlTree;

// A command that shows a record: its slot, and what comes of the cursor.
#[derive(Clone, Copy)]
pub struct Sight {
    pub slot: u16,
    pub then: Next,
}

// What is to be journalled of a command.
#[derive(Clone, Copy, PartialEq, Eq)]
pub enum Change {
    Added,
    Removed,
}

// An addition or a removal: its answer, what comes of the cursor, and the rest of the change: the command's
// tree and the lowest free slot after it. The record's fields stand in it one by one: as a struct in it
// they would cost a copy with padding.
#[derive(Clone, Copy)]
pub struct Step {
    pub key: u64,
    pub stamp: u32,
    pub start: u32,
    pub tree: AvlTree,
    pub slot: u16,
    pub free: u16,
    pub len: u16,
    pub change: Change,
    pub then: Next,
}

// A command that is refused and changes nothing: why, and what comes of the cursor.
#[derive(Clone, Copy)]
pub struct Refused {
    pub why: Refusal,
    pub then: Next,
}

// The cursor is lost, as by most refusals.
impl From<Refusal> for Refused {
    ghost from_gives = { λ why given. given ≡ record { why = why; then = Gone } };

    fn from(why: Refusal) -> Refused {
        Refused {
            why,
            then: Next::Gone,
        }
    }
}

impl Refused {
    // The cursor stays as it was.
    pub fn keeping(why: Refusal) -> Refused
        ensures { result ≡ record { why = why; then = Kept } }
    {
        Refused {
            why,
            then: Next::Kept,
        }
    }
}

// What a test refuses, refused so that the cursor stays as it was, but lost for this reason.
pub fn kept_unless<T: Copy>(test: Result<T, Refusal>, losing: Refusal) -> Result<T, Refused>
    ensures { result ≡ kept_unless_in test losing }
{
    if let Err(why) = test {
        if why == losing {
            return Err(Refused::from(why));
        }
    }
    test.map_err(Refused::keeping)
}
