// The commands of a batch in turn.
ghost use Rattle.std.specs.Prelude.{◌≡◌, ◌+◌, ◌*◌, ◌≤◌, length};
ghost use Rattle.batch.specs.Run.{ran_n};

use super::session::Session;
use cursor::command::read_command;
use cursor::state::Batch;
use format::answer;
use journal::Journal;
use slots::head::Head;

// The commands of the batch w, `count` of them: the head after them and after the batch's end.
pub fn run(body: &mut [u8], w: &[u8], names: &[u8], out: &mut [u8], h: Head, count: u16) -> Head
    requires { (count ≤ 256) × (16 + 24 * count ≤ length w.now) × (24 * count ≤ length out.old) }
    ensures { (body.new, (out.new, result)) ≡ ran_n count body.old w.now names.now out.old h }
{
    let table = h.table;
    let mut session = Session {
        batch: Batch::begun(h, None),
        table,
        journal: Journal::new(),
    };
    // by the index: std promises nothing of what a slice ends as after `as_chunks_mut`
    for k in 0..count {
        let c = read_command(w, k);
        let at = answer::SIZE * (k as usize);
        session.turn(body, names, c, &mut out[at..at + answer::SIZE]);
    }
    session.end(body)
}
