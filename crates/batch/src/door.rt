// The door: a batch of commands carried out on a pool, each answered; or why not, and nothing changed.
ghost use Rattle.std.specs.Prelude.{◌≡◌};
ghost use Rattle.format.specs.Refusal.{code};
ghost use Rattle.meaning.specs.Doors.{batch_ok, batch};
ghost use Rattle.batch.specs.Answered.{answered};

use super::run::run;
use format::refusal::Refusal;
use format::{answer, command, entry, header, limit};
use judge::verdict::judge;
use slots::head::{load, store};

// Whether the batch's header agrees with its length.
#[tactic(auto, unfolding(meaning::specs::Doors::batch_ok, meaning::specs::Doors::n_commands, meaning::specs::Doors::names_length, meaning::specs::Layout::all))]
fn batch_ok(w: &[u8]) -> bool
    ensures { result ≡ batch_ok w.now }
{
    let edition = fields::get::<u16>(w, format::batch::EDITION);
    let count = fields::get::<u16>(w, format::batch::COUNT) as usize;
    let commands = fields::get::<u32>(w, format::batch::COMMANDS) as usize;
    let names = fields::get::<u32>(w, format::batch::NAMES) as usize;
    let len = fields::get::<u32>(w, format::batch::NAMES_LEN) as usize;
    let end = format::batch::SIZE + command::SIZE * count;
    edition == limit::BATCH_EDITION
        && count <= limit::COMMANDS as usize
        && commands == format::batch::SIZE
        && names == end
        && len <= limit::NAMES_LEN as usize
        && w.len() == end + len
}

// Carries out the batch w on the pool and writes the answers: how many commands were answered. Refused it is
// with BAD_BATCH, BAD_OUT and DAMAGED, in that order.
pub fn batch(pool: &mut [u8], w: &[u8], answers: &mut [u8]) -> Result<u16, Refusal>
    ensures { record { code = code result; answered = answered result; pool = pool.new; answers = answers.new } ≡ batch pool.old w.now answers.old }
{
    if !batch_ok(w) {
        return Err(Refusal::BadBatch);
    }
    let count = fields::get::<u16>(w, format::batch::COUNT);
    if answers.len() < answer::SIZE * (count as usize) {
        return Err(Refusal::BadOut);
    }
    let census = judge(pool)?;
    let h = load(pool, census.live, census.free);
    let at = header::SIZE + entry::SIZE * (h.numbers.trees as usize);
    let names = format::batch::SIZE + command::SIZE * (count as usize);
    let g = run(&mut pool[at..], w, &w[names..], answers, h, count);
    store(pool, g);
    Ok(count)
}
