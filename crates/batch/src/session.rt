// What a batch carries from command to command, and a command in its turn: it is done on its tree and
// answered, what it changes is noted in the journal, and a rollback undoes what was noted.
ghost use Rattle.std.specs.Prelude.{◌≡◌, ◌<◌, length, Ok};
ghost use Rattle.cursor.specs.Given.{mark_in, step_in};
ghost use Rattle.cursor.specs.Work.{head_of, step_rec};
ghost use Rattle.ops.specs.Given.{settled_in};
ghost use Rattle.ops.specs.Op.{show_number, alter_number, settle_number};
ghost use Rattle.batch.specs.Run.{entry_n, settle_all_n, end_n, turn_n};
ghost use Rattle.batch.specs.Turn.{begun_journal};

use cursor::command::Command;
use cursor::result::{Change, Refused, Step};
use cursor::state::Batch;
use format::kind;
use format::refusal::{DONE, Refusal};
use journal::{Entry, Journal, Noted, roll_back};
use ops::mark::{Ask, Settled};
use ops::op::{Alter, Op, Settle, Show};
use ops::perform::settle;
use ops::task::Task;
use slots::answer::put_answer;
use slots::head::{Head, set_tree, tree_in};
use slots::record::{Record, record_at};
use tree::node::AvlTree;

// The state, the trees from tree 1 on, and the changes since the mark. The table and the journal stay where
// they are: an op that shows a record touches neither.
#[derive(Drop)]
pub struct Session {
    pub batch: Batch,
    pub table: [AvlTree; 8],
    pub journal: Journal,
}

// The record that the command c added or removed by the step s.
#[tactic(auto, using(crate::proofs::SessionSteps::noted_change))]
fn moved(c: Command, s: Step) -> Record
    ensures { result ≡ step_rec c (step_in (Ok s)) }
{
    Record {
        key: s.key,
        stamp: s.stamp,
        start: s.start,
        len: s.len,
        tree: c.tree,
    }
}

// What that leaves in the journal.
fn entry(c: Command, s: Step) -> Entry
    ensures { result ≡ entry_n c (step_in (Ok s)) }
{
    let change = match s.change {
        Change::Added => Noted::Added,
        Change::Removed => Noted::Removed(moved(c, s)),
    };
    Entry {
        slot: s.slot,
        change,
    }
}

// An op that settles, with what it asks of the journal: after a rollback a new one begins.
fn settle_all(
    body: &mut [u8],
    h: Head,
    mark: Option<u32>,
    journal: &mut Journal,
    op: Settle,
) -> Result<Settled, Refusal>
    ensures settled { (body.new, settled_in h (mark_in mark) result) ≡ settle_all_n body.old h (mark_in mark) journal.old.items (length journal.old.items) (settle_number op) }
    ensures noted { journal.new.items ≡ begun_journal journal.old.items (settled_in h (mark_in mark) result).change }
{
    let s = settle(body, h, mark, op)?;
    match s.ask {
        Ask::Nothing => Ok(s),
        Ask::Begin => {
            journal.clear();
            Ok(s)
        }
        Ask::Undo => {
            let mut head = h;
            roll_back(body, &mut head, mark.unwrap_or(0), journal);
            Ok(Settled {
                head,
                mark: None,
                ask: Ask::Begin,
            })
        }
    }
}

impl Session {
    ghost use Rattle.slots.specs.Head.{tree_n};
    ghost use Rattle.batch.specs.Turn.{session_work, left_in, left_n, turned, refused_did, seen_did, altered_out, settled_out};

    // The command c with its tree and the state.
    fn task(&self, c: Command) -> Task
        ensures { result ≡ record { command = c; tree = tree_n self.now.table c.tree; batch = self.now.batch } }
    {
        Task {
            command: c,
            tree: tree_in(&self.table, c.tree),
            batch: self.batch,
        }
    }

    // A command that is refused moves the cursor at most.
    fn refuse(&mut self, c: Command, r: Refused, row: &mut [u8])
        ensures { left_in self.new row.new ≡ left_n self.old row.old (refused_did (session_work self.old) c r) }
    {
        self.batch = self.batch.refused(c, r);
        let kind = self.batch.cursor.kind();
        put_answer(row, u8::from(r.why), kind, 0, Record::default());
    }

    fn show(&mut self, body: &[u8], c: Command, op: Show, row: &mut [u8])
        ensures { left_in self.new row.new ≡ left_n self.old row.old (seen_did body.now (session_work self.old) c (show_number op)) }
    {
        match self.task(c).see(body, op) {
            Ok(s) => {
                self.batch = self.batch.seen(c, s);
                let kind = self.batch.cursor.kind();
                put_answer(row, DONE, kind, s.slot, record_at(body, s.slot));
            }
            Err(r) => self.refuse(c, r, row),
        }
    }

    fn alter(&mut self, body: &mut [u8], names: &[u8], c: Command, op: Alter, row: &mut [u8])
        requires { length self.old.journal.items < 256 }
        ensures { (body.new, left_in self.new row.new) ≡ turned self.old row.old (altered_out body.old names.now (session_work self.old) c (alter_number op)) }
    {
        match self.task(c).alter(body, names, op) {
            Ok(s) => {
                self.batch = self.batch.changed(c, s);
                set_tree(&mut self.table, c.tree, s.tree);
                self.journal.push(entry(c, s));
                let kind = self.batch.cursor.kind();
                put_answer(row, DONE, kind, s.slot, moved(c, s));
            }
            Err(r) => self.refuse(c, r, row),
        }
    }

    fn settle(&mut self, body: &mut [u8], op: Settle, row: &mut [u8])
        ensures { (body.new, left_in self.new row.new) ≡ turned self.old row.old (settled_out body.old (session_work self.old) self.old.journal.items (settle_number op)) }
    {
        let h = self.batch.head(self.table);
        let mark = self.batch.mark;
        match settle_all(body, h, mark, &mut self.journal, op) {
            Ok(s) => {
                let table = s.head.table;
                self.batch = Batch::begun(s.head, s.mark);
                self.table = table;
                put_answer(row, DONE, kind::NOWHERE, 0, Record::default());
            }
            Err(why) => {
                self.batch = Batch::begun(h, mark);
                put_answer(row, u8::from(why), kind::NOWHERE, 0, Record::default());
            }
        }
    }

    // A command of the batch, its answer in its row of the answers.
    pub fn turn(&mut self, body: &mut [u8], names: &[u8], given: Command, row: &mut [u8])
        requires { length self.old.journal.items < 256 }
        ensures { (body.new, left_in self.new row.new) ≡ turned self.old row.old (turn_n body.old names.now (session_work self.old) self.old.journal.items (length self.old.journal.items) given) }
    {
        let c = given.aimed(self.batch.cursor.tree());
        match Op::try_from(c.op) {
            Ok(Op::Show(op)) => self.show(body, c, op, row),
            Ok(Op::Alter(op)) => self.alter(body, names, c, op, row),
            Ok(Op::Settle(op)) => self.settle(body, op, row),
            Err(why) => self.refuse(c, Refused::from(why), row),
        }
    }

    // The head after the batch's end: a mark that is open is rolled back.
    #[tactic(auto, unfolding(crate::specs::Run::end_n))]
    pub fn end(&mut self, body: &mut [u8]) -> Head
        ensures { (body.new, result) ≡ end_n body.old (head_of self.old.batch self.old.table) (mark_in self.old.batch.mark) self.old.journal.items (length self.old.journal.items) }
    {
        let mut h = self.batch.head(self.table);
        if let Some(used) = self.batch.mark {
            roll_back(body, &mut h, used, &mut self.journal);
        }
        h
    }
}
