// A record's own fields in the body: what it holds besides its links.
ghost use Rattle.std.specs.Prelude.{◌≡◌, ◌*◌, ◌-◌};
ghost use Rattle.slots.specs.Record.{record_n, fields_at, fields_put, fill_n, clear_n, lowest_n};

use format::record;

// The default is no record: all fields 0.
#[derive(Clone, Copy, Default)]
pub struct Record {
    pub key: u64,
    pub stamp: u32,
    pub start: u32,
    pub len: u16,
    pub tree: u8,
}

// Both are inlined: where the rows are known to be one row, no field is tested.
impl Record {
    // The fields of row i of the rows. What of it lies beyond them reads as 0.
    #[inline(always)]
    #[tactic(auto, unfolding(crate::specs::Record::fields_at))]
    fn read(rows: &[u8], i: u16) -> Record
        ensures { result ≡ fields_at rows.now (32 * i) }
    {
        let at = record::SIZE * (i as usize);
        Record {
            key: fields::get::<u64>(rows, at + record::KEY),
            stamp: fields::get::<u32>(rows, at + record::STAMP),
            start: fields::get::<u32>(rows, at + record::NAME_START),
            len: fields::get::<u16>(rows, at + record::NAME_LEN),
            tree: fields::get::<u8>(rows, at + record::TREE),
        }
    }

    // Stores the fields in row i of the rows, but what of it lies beyond them.
    #[inline(always)]
    #[tactic(auto, unfolding(crate::specs::Record::fields_put))]
    fn write(self, rows: &mut [u8], i: u16)
        ensures { rows.new ≡ fields_put rows.old (32 * i) self }
    {
        let at = record::SIZE * (i as usize);
        fields::put::<u64>(rows, at + record::KEY, self.key);
        fields::put::<u8>(rows, at + record::TREE, self.tree);
        fields::put::<u32>(rows, at + record::STAMP, self.stamp);
        fields::put::<u32>(rows, at + record::NAME_START, self.start);
        fields::put::<u16>(rows, at + record::NAME_LEN, self.len);
    }
}

// A row that the body may have in part only: no sound pool has one. Out of line, it leaves `record_at` short.
#[cold]
#[inline(never)]
fn part_at(body: &[u8], i: u16) -> Record
    ensures { result ≡ fields_at body.now (32 * i) }
{
    Record::read(body, i)
}

// The record of slot x; slot 0 has none. One test for the whole row spares one for each field.
#[inline(always)]
pub fn record_at(body: &[u8], x: u16) -> Record
    ensures { result ≡ record_n body.now x }
{
    if x == 0 {
        return Record::default();
    }
    let end = record::SIZE * (x as usize);
    if body.len() < end {
        return part_at(body, x - 1);
    }
    Record::read(&body[end - record::SIZE..end], 0)
}

// Writes a record's own fields into slot x. Its links are left.
pub fn fill(body: &mut [u8], x: u16, v: Record)
    ensures { body.new ≡ fill_n body.old x v }
{
    if x == 0 {
        return;
    }
    let end = record::SIZE * (x as usize);
    if body.len() < end {
        v.write(body, x - 1);
        return;
    }
    v.write(&mut body[end - record::SIZE..end], 0);
}

// Zeroes the 32 bytes of slot x.
#[tactic(auto, unfolding(crate::specs::Record::clear_n))]
pub fn clear(body: &mut [u8], x: u16)
    ensures { body.new ≡ clear_n body.old x }
{
    if x == 0 {
        return;
    }
    fields::zero_out(body, record::SIZE * (x as usize - 1), record::SIZE);
}

// The lowest free slot above `from` and up to n, 0 for none, as a slot's number is in the pool's bytes. By number and
// not over rows: a row that the body has in part only reads as free, and rows would leave it out.
pub fn lowest(body: &[u8], from: u16, n: u16) -> u16
    ensures { result ≡ lowest_n (n - from) body.now from }
{
    for at in from..n {
        if fields::get::<u8>(body, record::SIZE * (at as usize) + record::TREE) == 0 {
            return at + 1;
        }
    }
    0
}
