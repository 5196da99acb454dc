// create: a fresh pool in a buffer of exactly its size.
ghost use Rattle.std.specs.Prelude.{◌≡◌};
ghost use Rattle.format.specs.Refusal.{code};
ghost use Rattle.meaning.specs.Doors.{sizes_ok, create};
ghost use Rattle.create.specs.Create.{headed};

use format::refusal::Refusal;
use format::{entry, header, limit, record};

// Whether the numbers are within their limits and the buffer has the pool's size.
#[tactic(auto, unfolding(meaning::specs::Doors::sizes_ok, meaning::specs::Layout::within, meaning::specs::Layout::all))]
fn sizes_ok(n: u32, t: u32, x: u32, buffer: &[u8]) -> bool
    ensures { result ≡ sizes_ok n t x buffer.now }
{
    let size = header::SIZE + entry::SIZE * t as usize + record::SIZE * n as usize + x as usize;
    1 <= n
        && n <= limit::SLOTS
        && 1 <= t
        && t <= limit::TREES
        && x <= limit::TEXT_SIZE
        && buffer.len() == size
}

// Stores the fields of a fresh pool's header that are not 0.
#[tactic(auto, unfolding(crate::specs::Create::headed))]
fn write_header(buffer: &mut [u8], n: u16, t: u16, x: u32)
    ensures { buffer.new ≡ headed buffer.old n t x }
{
    let records = header::SIZE + entry::SIZE * t as usize;
    let text = records + record::SIZE * n as usize;
    fields::put::<u16>(buffer, header::EDITION, limit::POOL_EDITION);
    fields::put::<u16>(buffer, header::SLOTS, n);
    fields::put::<u16>(buffer, header::TREES, t);
    fields::put::<u32>(buffer, header::TABLE, header::SIZE as u32);
    fields::put::<u32>(buffer, header::RECORDS, records as u32);
    fields::put::<u32>(buffer, header::TEXT, text as u32);
    fields::put::<u32>(buffer, header::TEXT_SIZE, x);
    fields::put::<u32>(buffer, header::NEXT_STAMP, 1);
}

// A fresh pool, or BadSize and the buffer as it was.
pub fn create(n: u32, t: u32, x: u32, buffer: &mut [u8]) -> Result<(), Refusal>
    ensures { record { code = code result; buffer = buffer.new } ≡ create n t x buffer.old }
{
    if !sizes_ok(n, t, x, buffer) {
        return Err(Refusal::BadSize);
    }
    fields::zero_out(buffer, 0, buffer.len());
    write_header(buffer, n as u16, t as u16, x);
    Ok(())
}
