// The ops by what they do, each with the side that it works on, and their numbers. An op is parsed once.
ghost use Rattle.ops.specs.Op.{Parses};

use format::op;
use format::refusal::Refusal;
use tree::dir::Dir;

#[derive(Clone, Copy)]
pub enum Op {
    Show(Show),
    Alter(Alter),
    Settle(Settle),
}

// An op that shows a record.
#[derive(Clone, Copy)]
pub enum Show {
    Get,
    // of a handle
    Beside(Dir),
    // of a tree
    End(Dir),
    Entry,
    EndEntry(Dir),
    // of the cursor
    Peek(Dir),
    Move(Dir),
}

// An op that adds or removes one.
#[derive(Clone, Copy)]
pub enum Alter {
    Add,
    RemoveByKey,
    // by its handle
    Remove,
    // beside the cursor's record
    InsertBeside(Dir),
    InsertAndMove(Dir),
    InsertNode,
    RemoveHere,
    RemoveBeside(Dir),
    // append on the right, prepend on the left
    InsertEnd(Dir),
}

// An op that settles a mark, or resets the pool.
#[derive(Clone, Copy)]
pub enum Settle {
    Mark,
    Rollback,
    Commit,
    Reset,
}

impl TryFrom<u8> for Op {
    type Error = Refusal;

    ghost try_from_gives = { Parses };

    fn try_from(n: u8) -> Result<Op, Refusal> {
        Ok(match n {
            op::ADD => Op::Alter(Alter::Add),
            op::GET => Op::Show(Show::Get),
            op::REMOVE_BY_KEY => Op::Alter(Alter::RemoveByKey),
            op::REMOVE => Op::Alter(Alter::Remove),
            op::NEXT => Op::Show(Show::Beside(Dir::Right)),
            op::PREV => Op::Show(Show::Beside(Dir::Left)),
            op::FIRST => Op::Show(Show::End(Dir::Left)),
            op::LAST => Op::Show(Show::End(Dir::Right)),
            op::ENTRY => Op::Show(Show::Entry),
            op::FIRST_ENTRY => Op::Show(Show::EndEntry(Dir::Left)),
            op::LAST_ENTRY => Op::Show(Show::EndEntry(Dir::Right)),
            op::PEEK_NEXT => Op::Show(Show::Peek(Dir::Right)),
            op::PEEK_PREV => Op::Show(Show::Peek(Dir::Left)),
            op::MOVE_NEXT => Op::Show(Show::Move(Dir::Right)),
            op::MOVE_PREV => Op::Show(Show::Move(Dir::Left)),
            op::INSERT_BEFORE => Op::Alter(Alter::InsertBeside(Dir::Left)),
            op::INSERT_AFTER => Op::Alter(Alter::InsertBeside(Dir::Right)),
            op::INSERT_BEFORE_AND_MOVE => Op::Alter(Alter::InsertAndMove(Dir::Left)),
            op::INSERT_AFTER_AND_MOVE => Op::Alter(Alter::InsertAndMove(Dir::Right)),
            op::INSERT_NODE => Op::Alter(Alter::InsertNode),
            op::REMOVE_HERE => Op::Alter(Alter::RemoveHere),
            op::REMOVE_PREV => Op::Alter(Alter::RemoveBeside(Dir::Left)),
            op::REMOVE_NEXT => Op::Alter(Alter::RemoveBeside(Dir::Right)),
            op::APPEND => Op::Alter(Alter::InsertEnd(Dir::Right)),
            op::PREPEND => Op::Alter(Alter::InsertEnd(Dir::Left)),
            op::MARK => Op::Settle(Settle::Mark),
            op::ROLLBACK => Op::Settle(Settle::Rollback),
            op::COMMIT => Op::Settle(Settle::Commit),
            op::RESET => Op::Settle(Settle::Reset),
            _ => return Err(Refusal::BadOp),
        })
    }
}
