// One command by the number of its op. These stand since the promise at every number is to stay: see, alter and
// settle took any number before they took a parsed op. Each answers with BAD_OP what is not an op of its own kind.
ghost use Rattle.std.specs.Prelude.{◌≡◌};
ghost use Rattle.cursor.specs.Cursor.{cursor_of};
ghost use Rattle.cursor.specs.Given.{mark_in, sight_in, step_in};
ghost use Rattle.ops.specs.Given.{settled_in};
ghost use Rattle.ops.specs.Perform.{see_n, alter_n, settle_n};

use super::mark::Settled;
use super::op::Op;
use super::perform::settle;
use super::task::Task;
use cursor::result::{Refused, Sight, Step};
use format::refusal::Refusal;
use slots::head::Head;

impl Task {
    pub fn see_by_number(self, body: &[u8]) -> Result<Sight, Refused>
        ensures { sight_in result ≡ see_n body.now self.batch.numbers (cursor_of self.batch.cursor) self.tree self.command self.command.op }
    {
        let op = Op::try_from(self.command.op)?;
        match op {
            Op::Show(show) => self.see(body, show),
            Op::Alter(_) | Op::Settle(_) => Err(Refused::from(Refusal::BadOp)),
        }
    }

    pub fn alter_by_number(self, body: &mut [u8], names: &[u8]) -> Result<Step, Refused>
        ensures { (body.new, step_in result) ≡ alter_n body.old names.now self.batch.numbers (cursor_of self.batch.cursor) self.tree self.command self.command.op }
    {
        let op = Op::try_from(self.command.op)?;
        match op {
            Op::Alter(alter) => self.alter(body, names, alter),
            Op::Show(_) | Op::Settle(_) => Err(Refused::from(Refusal::BadOp)),
        }
    }
}

pub fn settle_by_number(body: &mut [u8], h: Head, m: Option<u32>, n: u8) -> Result<Settled, Refusal>
    ensures { (body.new, settled_in h (mark_in m) result) ≡ settle_n body.old h (mark_in m) n }
{
    let op = Op::try_from(n)?;
    match op {
        Op::Settle(settling) => settle(body, h, m, settling),
        Op::Show(_) | Op::Alter(_) => Err(Refusal::BadOp),
    }
}
