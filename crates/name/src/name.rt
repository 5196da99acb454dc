// name: the name of a record by its handle, as a part of the pool, and where that part stands.
ghost use Rattle.std.specs.Prelude.{◌≡◌, ◌&&◌, ◌+◌, ◌*◌, ◌≤◌, length};
ghost use Rattle.std.specs.Option.{is_some};
ghost use Rattle.meaning.specs.Pool.{n_slots, n_trees};
ghost use Rattle.meaning.specs.Sound.{sound};
ghost use Rattle.meaning.specs.Doors.{name, place_of};
ghost use Rattle.name.specs.Name.{matches, handle_ok, place};

use format::{entry, header, record};
use judge::verdict::is_sound;

// A part of the pool: the place of its first byte, and its length.
#[derive(Clone, Copy)]
pub struct Place {
    pub at: u32,
    pub len: u16,
}

// Whether the record r is live in tree t and has the stamp g.
fn is_match(r: &[u8], t: u8, g: u32) -> bool
    ensures { result ≡ matches t g r.now }
{
    let tree = fields::get::<u8>(r, record::TREE);
    (tree != 0) & (fields::get::<u32>(r, record::STAMP) == g) & (tree == t)
}

// Whether op 4 would take the handle (slot x, stamp g) in tree t. No struct: the three numbers come one by one from C.
fn handle_ok(pool: &[u8], t: u8, x: u16, g: u32) -> bool
    requires { 32 + 8 * n_trees pool.now + 32 * n_slots pool.now ≤ length pool.now }
    ensures { result ≡ handle_ok pool.now t x g }
{
    let trees = fields::get::<u16>(pool, header::TREES);
    let slots = fields::get::<u16>(pool, header::SLOTS);
    let is_named = (1 <= t) & (t as u16 <= trees) & (1 <= x) & (x <= slots);
    if !is_named {
        return false;
    }
    let at = header::SIZE + entry::SIZE * trees as usize + record::SIZE * (x as usize - 1);
    is_match(&pool[at..at + record::SIZE], t, g)
}

// Where the name stands, or None if the pool is unsound or op 4 would refuse the handle.
pub fn place_of(pool: &[u8], t: u8, x: u16, g: u32) -> Option<Place>
    ensures place { place result ≡ place_of pool.now t x g }
    ensures found { is_some result ≡ (sound pool.now && handle_ok pool.now t x g) }
{
    if !is_sound(pool) || !handle_ok(pool, t, x, g) {
        return None;
    }
    let records = header::SIZE + entry::SIZE * fields::get::<u16>(pool, header::TREES) as usize;
    let text = records + record::SIZE * fields::get::<u16>(pool, header::SLOTS) as usize;
    let row = records + record::SIZE * (x as usize - 1);
    let start = text + fields::get::<u32>(pool, row + record::NAME_START) as usize;
    let len = fields::get::<u16>(pool, row + record::NAME_LEN);
    Some(Place {
        at: start as u32,
        len,
    })
}

// The name, or an empty part if the pool is unsound or op 4 would refuse the handle.
pub fn name(pool: &[u8], t: u8, x: u16, g: u32) -> &[u8]
    ensures { result.now ≡ name pool.now t x g }
{
    let Some(Place { at, len }) = place_of(pool, t, x, g) else {
        return &pool[..0];
    };
    let start = at as usize;
    &pool[start..start + len as usize]
}
