// Zimatuno: the four doors by the names of include/zimatuno.h, with what each returns in one number, as C takes
// it. None has a `requires`: each promise holds for all bytes lent. The crate zimatuno_c exports them to C.
//
// | function  | door   | what it returns                                                                |
// |-----------|--------|--------------------------------------------------------------------------------|
// | zt_create | create | the code                                                                       |
// | zt_check  | check  | the code                                                                       |
// | zt_batch  | batch  | the code in bits 0 to 7, the number answered in bits 8 to 23                   |
// | zt_name   | name   | the name's offset in bits 0 to 31, its length in bits 32 to 63; 0 when refused |
#![tactic(auto)]

ghost use Rattle.std.specs.Prelude.{◌≡◌};
ghost use Rattle.meaning.specs.Doors.{create, check};
ghost use Rattle.zimatuno.specs.Abi.{batch_in_c, name_in_c};

use format::refusal::{DONE, code};

// A fresh pool of n slots, t trees and x bytes of text in the buffer: 0, or 4 (BAD_SIZE) and the buffer
// as it was.
pub fn zt_create(n: u16, t: u16, x: u32, buffer: &mut [u8]) -> u8
    ensures { record { code = result; buffer = buffer.new } ≡ create n t x buffer.old }
{
    code(create::create::create(n as u32, t as u32, x, buffer))
}

// 0 for a sound pool, else 1 (DAMAGED).
pub fn zt_check(pool: &[u8]) -> u8
    ensures { result ≡ check pool.now }
{
    code(judge::verdict::check(pool))
}

// Carries out the batch on the pool and writes the answers.
pub fn zt_batch(pool: &mut [u8], batch: &[u8], answers: &mut [u8]) -> u32
    ensures { (result, (pool.new, answers.new)) ≡ batch_in_c pool.old batch.now answers.old }
{
    match batch::door::batch(pool, batch, answers) {
        Ok(answered) => DONE as u32 + answered as u32 * 256,
        Err(why) => u8::from(why) as u32,
    }
}

// Where the name of a record stands in the pool.
pub fn zt_name(pool: &[u8], tree: u8, slot: u16, stamp: u32) -> u64
    ensures { result ≡ name_in_c pool.now tree slot stamp }
{
    match name::name::place_of(pool, tree, slot, stamp) {
        Some(p) => p.at as u64 + p.len as u64 * 4_294_967_296,
        None => 0,
    }
}
