// Marks and reset. A mark's changes stand in the journal, which the batch's loop keeps; a rollback is
// answered here and done there.
ghost use Rattle.std.specs.Prelude.{◌≡◌};
ghost use Rattle.slots.specs.declared.head.Head.{Head};
ghost use Rattle.cursor.specs.Given.{Mark, mark_in};
ghost use Rattle.ops.specs.Given.{ask_number, settled_in};
ghost use Rattle.ops.specs.Ops.{settled_n, mark_n, rollback_n, commit_n, reset_n};

use format::refusal::Refusal;
use slots::head::Head;

// What a command asks of the journal.
#[derive(Clone, Copy, PartialEq, Eq)]
pub enum Ask {
    Nothing,
    // that a new one begins
    Begin,
    // that the changes in it are undone
    Undo,
}

// What a command that shows, adds and removes nothing has done: the head after it, the mark, and what it
// asks of the journal. Head and mark are two values that go apart again: a struct of both would be taken
// apart at each use.
#[derive(Clone, Copy)]
pub struct Settled {
    pub head: Head,
    pub mark: Option<u32>,
    pub ask: Ask,
}

// What is done, with the mark after it: whatever the head and the mark were before it.
pub fn finish(head: Head, mark: Option<u32>, ask: Ask) -> Result<Settled, Refusal>
    ensures { (h : Head) → (k : Mark) → settled_in h k result ≡ settled_n head (mark_in mark) 0 (ask_number ask) }
{
    Ok(Settled { head, mark, ask })
}

// 26 mark.
#[tactic(auto, unfolding(crate::specs::Ops::mark_n))]
pub fn mark(h: Head, m: Option<u32>) -> Result<Settled, Refusal>
    ensures { settled_in h (mark_in m) result ≡ mark_n h (mark_in m) }
{
    if m.is_some() {
        return Err(Refusal::MarkOpen);
    }
    finish(h, Some(h.numbers.used), Ask::Begin)
}

// 27 rollback.
#[tactic(auto, unfolding(crate::specs::Ops::rollback_n))]
pub fn rollback(h: Head, m: Option<u32>) -> Result<Settled, Refusal>
    ensures { settled_in h (mark_in m) result ≡ rollback_n h (mark_in m) }
{
    if m.is_none() {
        return Err(Refusal::NoMark);
    }
    finish(h, m, Ask::Undo)
}

// 28 commit.
#[tactic(auto, unfolding(crate::specs::Ops::commit_n))]
pub fn commit(h: Head, m: Option<u32>) -> Result<Settled, Refusal>
    ensures { settled_in h (mark_in m) result ≡ commit_n h (mark_in m) }
{
    if m.is_none() {
        return Err(Refusal::NoMark);
    }
    finish(h, None, Ask::Nothing)
}

// 29 reset.
#[tactic(auto, unfolding(crate::specs::Ops::reset_n))]
pub fn reset(body: &mut [u8], h: Head, m: Option<u32>) -> Result<Settled, Refusal>
    ensures { (body.new, settled_in h (mark_in m) result) ≡ reset_n body.old h (mark_in m) }
{
    if m.is_some() {
        return Err(Refusal::MarkOpen);
    }
    finish(slots::change::reset(body, h), None, Ask::Nothing)
}
