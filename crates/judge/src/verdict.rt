// The verdict on a pool, in one pass over each of its sections: judge, and the door check.
ghost use Rattle.std.specs.Prelude.{◌≡◌, ◌≤◌, length};
ghost use Rattle.meaning.specs.Layout.{concat};
ghost use Rattle.meaning.specs.Sound.{sound};
ghost use Rattle.meaning.specs.Doors.{check};
ghost use Rattle.format.specs.Refusal.{code};
ghost use Rattle.judge.specs.Check.{trees_n};
ghost use Rattle.judge.specs.Rows.{judged};

use super::rows::{Records, entries_ok, header_ok};
use super::walk::check_tree;
use format::refusal::Refusal;
use format::{entry, header, record};

// Of a sound pool: how many records are live, and the lowest free slot. 0 for none and no Option: `free_slot`
// of `meaning` gives 0 for none, and the numbers of a batch hold it so.
#[derive(Clone, Copy)]
pub struct Census {
    pub live: u16,
    pub free: u16,
}

// The trees, each in one pass: every walk is good and as long as its count says, and together they
// have all live records.
fn trees_ok(records: Records, entries: &[[u8; entry::SIZE]], live: u16) -> bool
    requires { length entries.now ≤ 8 }
    ensures { result ≡ trees_n (concat records.entry.rows.now) (length records.entry.rows.now) live 1 0 entries.now }
{
    let mut total: u32 = 0;
    for (i, e) in entries.iter().enumerate() {
        let count = fields::get::<u16>(e, entry::COUNT) as u32;
        let root = fields::get::<u16>(e, entry::ROOT);
        if check_tree(records, (i + 1) as u8, root) != Some(count) {
            return false;
        }
        total += count;
    }
    total == live as u32
}

// What is known of a pool once it is judged: that it is damaged, or its census.
pub fn judge(pool: &[u8]) -> Result<Census, Refusal>
    ensures { result ≡ judged pool.now }
{
    if !header_ok(pool) {
        return Err(Refusal::Damaged);
    }
    let used = fields::get::<u32>(pool, header::TEXT_USED);
    let next = fields::get::<u32>(pool, header::NEXT_STAMP);
    let at = header::SIZE + entry::SIZE * fields::get::<u16>(pool, header::TREES) as usize;
    let end = at + record::SIZE * fields::get::<u16>(pool, header::SLOTS) as usize;
    let (entries, _) = pool[header::SIZE..at].as_chunks::<{ entry::SIZE }>();
    let (rows, _) = pool[at..end].as_chunks::<{ record::SIZE }>();
    if !entries_ok(entries) {
        return Err(Refusal::Damaged);
    }
    let records = Records { rows };
    let Some(census) = records.census(used, next) else {
        return Err(Refusal::Damaged);
    };
    let text = end + used as usize;
    if !fields::all_zero(pool, text, pool.len() - text)
        || fields::get::<u16>(pool, header::LIVE) != census.live
        || !trees_ok(records, entries, census.live)
    {
        return Err(Refusal::Damaged);
    }
    Ok(census)
}

// Whether the pool is sound.
pub fn is_sound(pool: &[u8]) -> bool
    ensures { result ≡ sound pool.now }
{
    judge(pool).is_ok()
}

// Whether the pool is sound, as the door tells it.
pub fn check(pool: &[u8]) -> Result<(), Refusal>
    ensures { code result ≡ check pool.now }
{
    judge(pool)?;
    Ok(())
}
