// The clauses of a sound pool over its header, a tree entry and a record, and one pass over the records.
ghost use Rattle.std.specs.Prelude.{◌≡◌, ℕ, ◌<◌, ◌≤◌, [], length, slice_index_or};
ghost use Rattle.fields.specs.Number.{Bytes};
ghost use Rattle.meaning.specs.Layout.{concat, every};
ghost use Rattle.meaning.specs.Sound.{header_ok, entry_ok};
ghost use Rattle.judge.specs.Rows.{live_in, record_in, counted};

use super::verdict::Census;
use format::{entry, header, limit, record};

// Whether the header agrees with the pool's length.
#[tactic(auto, unfolding(meaning::specs::Sound::header_ok, meaning::specs::Layout::within, meaning::specs::Layout::all, meaning::specs::Pool::opened))]
pub fn header_ok(pool: &[u8]) -> bool
    ensures { result ≡ header_ok pool.now }
{
    let n = fields::get::<u16>(pool, header::SLOTS);
    let t = fields::get::<u16>(pool, header::TREES);
    let x = fields::get::<u32>(pool, header::TEXT_SIZE);
    let records = header::SIZE + entry::SIZE * t as usize;
    let text = records + record::SIZE * n as usize;
    fields::get::<u16>(pool, header::EDITION) == limit::POOL_EDITION
        && 1 <= n
        && n as u32 <= limit::SLOTS
        && 1 <= t
        && t as u32 <= limit::TREES
        && fields::get::<u32>(pool, header::TABLE) as usize == header::SIZE
        && fields::get::<u32>(pool, header::RECORDS) as usize == records
        && fields::get::<u32>(pool, header::TEXT) as usize == text
        && x <= limit::TEXT_SIZE
        && fields::get::<u32>(pool, header::TEXT_USED) <= x
        && 1 <= fields::get::<u32>(pool, header::NEXT_STAMP)
        && pool.len() == text + x as usize
}

// A tree entry: its root is 0 exactly if its count is 0, and its last four bytes are zero.
#[tactic(auto, unfolding(meaning::specs::Sound::entry_ok, meaning::specs::Layout::all, meaning::specs::Pool::opened))]
fn entry_ok(e: &[u8; entry::SIZE]) -> bool
    ensures { result ≡ entry_ok e.now }
{
    let is_empty = fields::get::<u16>(e, entry::COUNT) == 0;
    (fields::get::<u16>(e, entry::ROOT) == 0) == is_empty
        && fields::all_zero(e, entry::ZEROS, entry::SIZE - entry::ZEROS)
}

// The tree entries.
pub fn entries_ok(entries: &[[u8; entry::SIZE]]) -> bool
    ensures { result ≡ every entry_ok entries.now }
{
    entries.iter().all(|e| entry_ok(e))
}

// A live record but for its balance and its tree: that the walks meet every live record says that its balance is
// 0 to 2 and its tree one of this pool's. The name's length and the six zero bytes behind it are read as one number.
// All tests hold in a sound pool, so none branches by itself. `used` and `next` are two numbers of the header, read
// once: a struct of both would only be made and taken apart.
fn live_ok(r: &[u8; record::SIZE], used: u32, next: u32) -> bool
    ensures { result ≡ live_in used next r.now }
{
    let stamp = fields::get::<u32>(r, record::STAMP);
    let wide = fields::get::<u64>(r, record::NAME_LEN);
    let end = fields::get::<u32>(r, record::NAME_START) as u64
        + fields::get::<u16>(r, record::NAME_LEN) as u64;
    let named = (1 <= wide) & (wide <= limit::NAME_LEN as u64) & (end <= used as u64);
    (1 <= stamp) & (stamp < next) & named
}

// A record: live, or 32 zero bytes.
fn record_ok(r: &[u8; record::SIZE], used: u32, next: u32) -> bool
    ensures { result ≡ record_in used next r.now }
{
    if fields::get::<u8>(r, record::TREE) == 0 {
        fields::all_zero(r, 0, record::SIZE)
    } else {
        live_ok(r, used, next)
    }
}

// The records of a pool, by slots: their bytes, and that a slot's number has two of them.
#[derive(Clone, Copy)]
pub struct Records<'a> {
    pub rows: &'a [[u8; record::SIZE]],
    pub ghost few: { length rows.now ≤ 65_535 },
    pub ghost wide: { (i : ℕ) → i < length rows.now → length (slice_index_or rows.now i []) ≡ 32 },
    pub ghost bytes: { Bytes (concat rows.now) },
}

impl Records<'_> {
    // How many are live and the lowest free slot, or None if one is not good.
    pub fn census(self, used: u32, next: u32) -> Option<Census>
        ensures { result ≡ counted used next 1 0 0 self.entry.rows.now }
    {
        let mut live: u16 = 0;
        let mut free: u16 = 0;
        for (i, r) in self.rows.iter().enumerate() {
            if !record_ok(r, used, next) {
                return None;
            }
            if fields::get::<u8>(r, record::TREE) != 0 {
                live += 1;
            } else if free == 0 {
                free = (i + 1) as u16;
            }
        }
        Some(Census { live, free })
    }
}
