// A command as it stands in a batch, and the tests that commands share.
ghost use Rattle.std.specs.Prelude.{ℕ, ◌≡◌, ◌+◌, ◌*◌, ◌≤◌, length};
ghost use Rattle.tree.specs.Node.{way};
ghost use Rattle.cursor.specs.Given.{tested};
ghost use Rattle.cursor.specs.Tests.{command_n, aimed_n, named_n, tree_test, slot_test, room_n, handle_n, past_n, between_n};

use format::refusal::Refusal;
use format::{batch, command, limit, op};
use slots::head::Numbers;
use slots::record::Record;
use tree::dir::Dir;
use tree::node::get_key;

#[derive(Clone, Copy)]
pub struct Command {
    pub key: u64,
    pub stamp: u32,
    // the name: its offset in the names, and its length
    pub at: u32,
    pub len: u16,
    pub slot: u16,
    // the byte that the caller lent: any value can come, and `Op::try_from` of ops parses it
    pub op: u8,
    // the tree that it works on
    pub tree: u8,
}

impl Command {
    // On the tree that it works on: the one that it names up to op 11, then the cursor's, t.
    #[tactic(auto, unfolding(crate::specs::Tests::aimed_n))]
    pub fn aimed(mut self, t: u8) -> Command
        ensures { result ≡ aimed_n self t }
    {
        if op::LAST_NAMING_TREE < self.op {
            self.tree = t;
        }
        self
    }
}

// Command k of the batch w, with the tree that it names.
pub fn read_command(w: &[u8], k: u16) -> Command
    requires { 16 + 24 * (k + 1) ≤ length w.now }
    ensures { result ≡ command_n w.now k }
{
    let start = batch::SIZE + command::SIZE * (k as usize);
    let end = start + command::SIZE;
    let row = &w[start..end];
    Command {
        key: fields::get::<u64>(row, command::KEY),
        stamp: fields::get::<u32>(row, command::STAMP),
        at: fields::get::<u32>(row, command::NAME_AT),
        len: fields::get::<u16>(row, command::NAME_LEN),
        slot: fields::get::<u16>(row, command::SLOT),
        op: fields::get::<u8>(row, command::OP),
        tree: fields::get::<u8>(row, command::TREE),
    }
}

// ---- tests that refuse a command: each promise says the number of its refusal, or else of what follows

// Whether there is such a tree.
#[tactic(auto, unfolding(crate::specs::Tests::tree_test, meaning::specs::Layout::within))]
pub fn on_tree(numbers: Numbers, c: Command) -> Result<(), Refusal>
    ensures { (rest : ℕ) → tested result rest ≡ tree_test numbers c rest }
{
    if c.tree == 0 || numbers.trees < c.tree as u16 {
        return Err(Refusal::BadTree);
    }
    Ok(())
}

// Whether there is such a slot.
#[tactic(auto, unfolding(crate::specs::Tests::slot_test, meaning::specs::Layout::within))]
pub fn on_slot(numbers: Numbers, c: Command) -> Result<(), Refusal>
    ensures { (rest : ℕ) → tested result rest ≡ slot_test numbers c rest }
{
    if c.slot == 0 || numbers.slots < c.slot {
        return Err(Refusal::BadSlot);
    }
    Ok(())
}

// Whether the command's handle is that of v, the record of its slot.
#[tactic(auto, unfolding(crate::specs::Tests::handle_n))]
pub fn handle(v: Record, c: Command) -> Result<(), Refusal>
    ensures { (rest : ℕ) → tested result rest ≡ handle_n v c rest }
{
    if v.tree == 0 || v.stamp != c.stamp {
        return Err(Refusal::Stale);
    }
    if v.tree != c.tree {
        return Err(Refusal::OtherTree);
    }
    Ok(())
}

// Whether there is a slot, text and a stamp for one more record.
#[tactic(auto, unfolding(crate::specs::Tests::room_n))]
pub fn room(numbers: Numbers, len: u16) -> Result<(), Refusal>
    ensures { tested result 0 ≡ room_n numbers len }
{
    if numbers.free == 0 {
        return Err(Refusal::NoSlot);
    }
    if (numbers.size as u64) < numbers.used as u64 + len as u64 {
        return Err(Refusal::NoText);
    }
    if numbers.next == limit::LAST_STAMP {
        return Err(Refusal::NoStamp);
    }
    Ok(())
}

// Whether a name has 1 to 255 bytes and lies within the names.
#[tactic(auto, unfolding(crate::specs::Tests::named_n, meaning::specs::Layout::within))]
pub fn is_name(names: &[u8], at: u32, len: u16) -> bool
    ensures { result ≡ named_n names.now at len }
{
    1 <= len && len <= limit::NAME_LEN && fields::within(names, at as usize, len as usize)
}

// Whether the key lies strictly on side d of the record x, if there is one.
#[tactic(auto, unfolding(crate::specs::Tests::past_n))]
fn is_past(body: &[u8], d: Dir, x: u16, key: u64) -> bool
    ensures { result ≡ past_n body.now (way d) x key }
{
    if x == 0 {
        return true;
    }
    let k = get_key(body, x);
    match d {
        Dir::Left => key < k,
        Dir::Right => k < key,
    }
}

// Whether the key lies strictly between the record x and the record y on side d of it, if any.
#[tactic(auto, unfolding(crate::specs::Tests::between_n))]
pub fn is_between(body: &[u8], d: Dir, x: u16, y: u16, key: u64) -> bool
    ensures { result ≡ between_n body.now (way d) x y key }
{
    is_past(body, d, x, key) && is_past(body, d.reverse(), y, key)
}
