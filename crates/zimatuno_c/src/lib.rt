// Zimatuno for programs in C or Rust: the static library whose functions include/zimatuno.h names. Each is the
// function of that name of the crate zimatuno, with the same promise. A slice is a pointer and then a length. The
// four stand twice since C needs exported names and a static library, which no crate can stand on: the theorems on
// them are of zimatuno.
#![tactic(auto)]

ghost use Rattle.std.specs.Prelude.{◌≡◌};
ghost use Rattle.meaning.specs.Doors.{create, check};
ghost use Rattle.zimatuno.specs.Abi.{batch_in_c, name_in_c};

// A fresh pool of n slots, t trees and x bytes of text in the buffer: 0, or 4 (BAD_SIZE) and the buffer
// as it was.
#[unsafe(no_mangle)]
pub extern "C" fn zt_create(n: u16, t: u16, x: u32, buffer: &mut [u8]) -> u8
    ensures { record { code = result; buffer = buffer.new } ≡ create n t x buffer.old }
{
    zimatuno::zt_create(n, t, x, buffer)
}

// 0 for a sound pool, else 1 (DAMAGED).
#[unsafe(no_mangle)]
pub extern "C" fn zt_check(pool: &[u8]) -> u8
    ensures { result ≡ check pool.now }
{
    zimatuno::zt_check(pool)
}

// Carries out the batch on the pool and writes the answers.
#[unsafe(no_mangle)]
pub extern "C" fn zt_batch(pool: &mut [u8], batch: &[u8], answers: &mut [u8]) -> u32
    ensures { (result, (pool.new, answers.new)) ≡ batch_in_c pool.old batch.now answers.old }
{
    zimatuno::zt_batch(pool, batch, answers)
}

// Where the name of a record stands in the pool.
#[unsafe(no_mangle)]
pub extern "C" fn zt_name(pool: &[u8], tree: u8, slot: u16, stamp: u32) -> u64
    ensures { result ≡ name_in_c pool.now tree slot stamp }
{
    zimatuno::zt_name(pool, tree, slot, stamp)
}
